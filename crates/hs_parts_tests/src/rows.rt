//! Rows, and what is read of their sources.
use crate::show_names::{Out, put};
use crate::show_patterns::show_pattern;
use crate::show_types::{show_fix, show_sig, show_type};
use hs_lex::lex::lex;
use hs_parts::parse::{parse_pattern, parse_type};
use hs_parts::sigs::{fix, sig};
use hs_syntax::token::Token;
use mk_base::list::List;
use mk_base::memory::NoMemory;
use std::alloc::Global;
use std::process::Abort;

/// What is read.
#[derive(Clone, Copy)]
pub enum Part {
    Type,
    Pattern,
    Sig,
    Fix,
}

fn show_none(out: &mut Out) -> Result<(), NoMemory> {
    put(out, b"none")
}

fn show_left(out: &mut Out, rest: &[Token]) -> Result<(), NoMemory> {
    put(out, b" ")?;
    out.text.push_number(rest.len() as u64)
}

fn read_type(alloc: Global, out: &mut Out, tokens: &[Token]) -> Result<(), NoMemory> {
    match parse_type(alloc, tokens)? {
        None => show_none(out),
        Some(tree) => show_type(out, &tree),
    }
}

fn read_pattern(alloc: Global, out: &mut Out, tokens: &[Token]) -> Result<(), NoMemory> {
    match parse_pattern(alloc, tokens)? {
        None => show_none(out),
        Some(tree) => show_pattern(out, &tree),
    }
}

fn read_sig(alloc: Global, out: &mut Out, tokens: &[Token]) -> Result<(), NoMemory> {
    match sig(alloc, 8 * tokens.len() + 8, tokens)? {
        None => show_none(out),
        Some((tree, rest)) => {
            show_sig(out, &tree)?;
            show_left(out, rest)
        }
    }
}

fn read_fix(alloc: Global, out: &mut Out, tokens: &[Token]) -> Result<(), NoMemory> {
    match fix(alloc, 8 * tokens.len() + 8, tokens)? {
        None => show_none(out),
        Some((tree, rest)) => {
            show_fix(out, &tree)?;
            show_left(out, rest)
        }
    }
}

fn read_part(alloc: Global, out: &mut Out, part: Part, tokens: &[Token]) -> Result<(), NoMemory> {
    match part {
        Part::Type => read_type(alloc, out, tokens),
        Part::Pattern => read_pattern(alloc, out, tokens),
        Part::Sig => read_sig(alloc, out, tokens),
        Part::Fix => read_fix(alloc, out, tokens),
    }
}

fn shown(alloc: Global, part: Part, places: bool, source: &[u8]) -> Result<List<u8>, NoMemory> {
    let mut out = Out {
        text: List::new(alloc),
        places,
    };
    if source.len() <= 1048576 {
        if let Ok(tokens) = lex(alloc, source) {
            read_part(alloc, &mut out, part, tokens.as_slice())?;
        }
    }
    Ok(out.text)
}

fn run_all(
    rt: &impl Abort,
    alloc: Global,
    part: Part,
    places: bool,
    rows: &str,
) -> Result<(), NoMemory> {
    for row in rows.lines() {
        let (source, want) = row.split_once(';').unwrap_or((row, ""));
        let found = shown(alloc, part, places, source.as_bytes())?;
        assert!(rt; found.as_slice() == want.as_bytes(), "{row}");
    }
    Ok(())
}

/// Each row's source is the tree behind its semicolon.
pub fn run(rt: &impl Abort, alloc: Global, part: Part, rows: &str) -> Result<(), NoMemory> {
    run_all(rt, alloc, part, false, rows)
}

/// The same, with the columns of all trees.
pub fn run_places(rt: &impl Abort, alloc: Global, part: Part, rows: &str) -> Result<(), NoMemory> {
    run_all(rt, alloc, part, true, rows)
}

fn is_type(alloc: Global, tokens: &[Token]) -> bool {
    match parse_type(alloc, tokens) {
        Ok(Some(_)) => true,
        _ => false,
    }
}

fn is_pattern(alloc: Global, tokens: &[Token]) -> bool {
    match parse_pattern(alloc, tokens) {
        Ok(Some(_)) => true,
        _ => false,
    }
}

fn is_part(alloc: Global, part: Part, tokens: &[Token]) -> bool {
    match part {
        Part::Type => is_type(alloc, tokens),
        Part::Pattern => is_pattern(alloc, tokens),
        _ => false,
    }
}

/// Whether a source is a type or a pattern.
pub fn is_read(alloc: Global, part: Part, source: &[u8]) -> bool {
    if source.len() > 1048576 {
        return false;
    }
    match lex(alloc, source) {
        Ok(tokens) => is_part(alloc, part, tokens.as_slice()),
        Err(_) => false,
    }
}
