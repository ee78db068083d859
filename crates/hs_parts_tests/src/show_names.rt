//! Names, operators and literals in rows.
use hs_syntax::name_ref::{NameRef, OpName, QopTree};
use hs_syntax::pattern_tree::GconTree;
use hs_syntax::token::Token;
use mk_base::list::List;
use mk_base::memory::NoMemory;
use mk_base::place::Pos;

/// What is written, and whether each tree has its column behind it.
#[derive(Drop)]
pub struct Out {
    pub text: List<u8>,
    pub places: bool,
}

/// Some bytes.
pub fn put(out: &mut Out, bytes: &[u8]) -> Result<(), NoMemory> {
    out.text.extend(bytes)
}

/// The column of a tree, where columns are asked for.
pub fn put_place(out: &mut Out, at: Pos) -> Result<(), NoMemory> {
    if out.places {
        out.text.push(b'@')?;
        out.text.push_number(u64::from(at.col))?;
    }
    Ok(())
}

/// A variable.
pub fn show_var(out: &mut Out, name: &NameRef) -> Result<(), NoMemory> {
    if name.qualifier.len() > 0 {
        put(out, name.qualifier.as_slice())?;
        put(out, b"/")?;
    }
    put(out, name.text.as_slice())?;
    put_place(out, name.at)
}

/// A constructor, a type or a class.
pub fn show_con(out: &mut Out, name: &NameRef) -> Result<(), NoMemory> {
    put(out, b".")?;
    show_var(out, name)
}

/// A space and the operator of a constructor.
pub fn show_con_op(out: &mut Out, op: &OpName) -> Result<(), NoMemory> {
    put(out, b" ")?;
    show_con(out, &op.name)?;
    put_place(out, op.at)
}

/// A space and an operator.
pub fn show_op(out: &mut Out, op: &QopTree) -> Result<(), NoMemory> {
    put(out, b" ")?;
    match op {
        QopTree::Var { at, name } => {
            show_var(out, name)?;
            put_place(out, *at)
        }
        QopTree::Con { at, name } => {
            show_con(out, name)?;
            put_place(out, *at)
        }
    }
}

/// Some commas.
pub fn show_commas(out: &mut Out, commas: usize) -> Result<(), NoMemory> {
    for _ in 0..commas {
        put(out, b",")?;
    }
    Ok(())
}

/// A constructor of values.
pub fn show_gcon(out: &mut Out, con: &GconTree) -> Result<(), NoMemory> {
    match con {
        GconTree::Con { at, name } => {
            show_con(out, name)?;
            put_place(out, *at)
        }
        GconTree::Unit { at } => {
            put(out, b"unit")?;
            put_place(out, *at)
        }
        GconTree::List { at } => {
            put(out, b"nil")?;
            put_place(out, *at)
        }
        GconTree::Tuple { at, commas } => {
            show_commas(out, *commas)?;
            put_place(out, *at)
        }
    }
}

/// A literal.
pub fn show_literal(out: &mut Out, literal: &Token) -> Result<(), NoMemory> {
    put(out, literal.text.as_slice())?;
    put_place(out, literal.at)
}
