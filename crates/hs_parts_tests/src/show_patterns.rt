//! Patterns in rows.
use crate::show_names::{
    Out, put, put_place, show_con, show_con_op, show_gcon, show_literal, show_var,
};
use hs_syntax::pattern_tree::{ApatTree, FpatTree, PatLink, PatOperand, PatTree};
use mk_base::memory::NoMemory;
use sqlite_items::Boxed;

/// A pattern.
#[cycle(patterns)]
pub fn show_pattern(out: &mut Out, tree: &PatTree) -> Result<(), NoMemory> {
    if tree.links.len() == 0 {
        show_operand(out, &tree.last)?;
    } else {
        put(out, b"(chain ")?;
        show_links(out, tree.links.as_slice())?;
        show_operand(out, &tree.last)?;
        put(out, b")")?;
    }
    put_place(out, tree.at)
}

#[cycle(patterns)]
fn show_links(out: &mut Out, links: &[PatLink]) -> Result<(), NoMemory> {
    for i in 0..links.len() {
        show_link(out, &links[i])?;
    }
    Ok(())
}

#[cycle(patterns)]
fn show_link(out: &mut Out, link: &PatLink) -> Result<(), NoMemory> {
    show_operand(out, &link.operand)?;
    put_place(out, link.at)?;
    show_con_op(out, &link.op)?;
    put(out, b" ")
}

#[cycle(patterns)]
fn show_operand(out: &mut Out, tree: &PatOperand) -> Result<(), NoMemory> {
    match tree {
        PatOperand::Number { at, minus, number } => {
            if *minus {
                put(out, b"(minus ")?;
            } else {
                put(out, b"(number ")?;
            }
            show_literal(out, number)?;
            put(out, b")")?;
            put_place(out, *at)
        }
        PatOperand::Applied { at, con, args } => {
            put(out, b"(con ")?;
            show_gcon(out, con)?;
            show_apats(out, args.as_slice())?;
            put(out, b")")?;
            put_place(out, *at)
        }
        PatOperand::Single { at, pattern } => {
            show_apat(out, pattern)?;
            put_place(out, *at)
        }
    }
}

#[cycle(patterns)]
fn show_apats(out: &mut Out, parts: &[ApatTree]) -> Result<(), NoMemory> {
    for i in 0..parts.len() {
        put(out, b" ")?;
        show_apat(out, &parts[i])?;
    }
    Ok(())
}

#[cycle(patterns)]
fn show_patterns(out: &mut Out, parts: &[PatTree]) -> Result<(), NoMemory> {
    for i in 0..parts.len() {
        put(out, b" ")?;
        show_pattern(out, &parts[i])?;
    }
    Ok(())
}

#[cycle(patterns)]
fn show_as(out: &mut Out, pattern: &Option<Boxed<ApatTree>>) -> Result<(), NoMemory> {
    match pattern {
        None => Ok(()),
        Some(pattern) => {
            put(out, b"@ ")?;
            show_apat(out, pattern.get())
        }
    }
}

#[cycle(patterns)]
fn show_apat(out: &mut Out, tree: &ApatTree) -> Result<(), NoMemory> {
    match tree {
        ApatTree::Var { at, name, pattern } => {
            show_var(out, name)?;
            show_as(out, pattern)?;
            put_place(out, *at)
        }
        ApatTree::Con { at, con } => {
            show_gcon(out, con)?;
            put_place(out, *at)
        }
        ApatTree::Record { at, con, fields } => {
            put(out, b"(record ")?;
            show_con(out, con)?;
            show_fpats(out, fields.as_slice())?;
            put(out, b")")?;
            put_place(out, *at)
        }
        ApatTree::Literal { at, literal } => {
            show_literal(out, literal)?;
            put_place(out, *at)
        }
        ApatTree::Wild { at } => {
            put(out, b"_")?;
            put_place(out, *at)
        }
        ApatTree::Tuple { at, parts } => {
            put(out, b"(tuple")?;
            show_patterns(out, parts.as_slice())?;
            put(out, b")")?;
            put_place(out, *at)
        }
        ApatTree::List { at, parts } => {
            put(out, b"(list")?;
            show_patterns(out, parts.as_slice())?;
            put(out, b")")?;
            put_place(out, *at)
        }
        ApatTree::Lazy { at, pattern } => {
            put(out, b"(lazy ")?;
            show_apat(out, pattern.get())?;
            put(out, b")")?;
            put_place(out, *at)
        }
    }
}

#[cycle(patterns)]
fn show_fpats(out: &mut Out, fields: &[FpatTree]) -> Result<(), NoMemory> {
    for i in 0..fields.len() {
        show_fpat(out, &fields[i])?;
    }
    Ok(())
}

#[cycle(patterns)]
fn show_fpat(out: &mut Out, field: &FpatTree) -> Result<(), NoMemory> {
    put(out, b" (")?;
    show_var(out, &field.name)?;
    put(out, b" = ")?;
    show_pattern(out, &field.pattern)?;
    put(out, b")")?;
    put_place(out, field.at)
}
