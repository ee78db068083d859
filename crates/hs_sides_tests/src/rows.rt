//! Rows, and the left sides that are read of their sources.
use crate::show_names::{Out, put};
use crate::show_patterns::show_side;
use hs_lex::lex::lex;
use hs_sides::parse::parse_lhs;
use hs_syntax::pattern_tree::LhsTree;
use hs_syntax::token::Token;
use mk_base::list::List;
use mk_base::memory::NoMemory;
use std::alloc::Global;
use std::process::Abort;

fn show_left(out: &mut Out, rest: &[Token]) -> Result<(), NoMemory> {
    put(out, b" ")?;
    out.text.push_number(rest.len() as u64)
}

fn show_both(out: &mut Out, tree: &LhsTree, rest: &[Token]) -> Result<(), NoMemory> {
    show_side(out, tree)?;
    show_left(out, rest)
}

fn show_found(out: &mut Out, found: &Option<(LhsTree, &[Token])>) -> Result<(), NoMemory> {
    match found {
        None => put(out, b"none"),
        Some((tree, rest)) => show_both(out, tree, rest),
    }
}

fn read_side(alloc: Global, out: &mut Out, tokens: &[Token]) -> Result<(), NoMemory> {
    let found = parse_lhs(alloc, tokens)?;
    show_found(out, &found)
}

fn shown(alloc: Global, places: bool, source: &[u8]) -> Result<List<u8>, NoMemory> {
    let mut out = Out {
        text: List::new(alloc),
        places,
    };
    if source.len() <= 1048576 {
        if let Ok(tokens) = lex(alloc, source) {
            read_side(alloc, &mut out, tokens.as_slice())?;
        }
    }
    Ok(out.text)
}

fn run_all(rt: &impl Abort, alloc: Global, places: bool, rows: &str) -> Result<(), NoMemory> {
    for row in rows.lines() {
        let (source, want) = row.split_once(';').unwrap_or((row, ""));
        let found = shown(alloc, places, source.as_bytes())?;
        assert!(rt; found.as_slice() == want.as_bytes(), "{row}");
    }
    Ok(())
}

/// Each row's source is the tree behind its semicolon.
pub fn run(rt: &impl Abort, alloc: Global, rows: &str) -> Result<(), NoMemory> {
    run_all(rt, alloc, false, rows)
}

/// The same, with the columns of all trees.
pub fn run_places(rt: &impl Abort, alloc: Global, rows: &str) -> Result<(), NoMemory> {
    run_all(rt, alloc, true, rows)
}

fn is_side(alloc: Global, tokens: &[Token]) -> bool {
    match parse_lhs(alloc, tokens) {
        Ok(Some((_, rest))) => rest.len() == 1,
        _ => false,
    }
}

/// Whether a source is a left side and the one lexeme behind it.
pub fn is_read(alloc: Global, source: &[u8]) -> bool {
    if source.len() > 1048576 {
        return false;
    }
    match lex(alloc, source) {
        Ok(tokens) => is_side(alloc, tokens.as_slice()),
        Err(_) => false,
    }
}
