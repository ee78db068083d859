//! Types, contexts, signatures and fixities in rows.
use crate::show_names::{Out, put, put_place, show_commas, show_con, show_op, show_var};
use hs_syntax::expr_tree::{FixTree, FixWord, SigTree};
use hs_syntax::type_tree::{AtypeTree, BtypeTree, ClassTree, ContextTree, QualifiedType, TypeTree};
use mk_base::memory::NoMemory;

/// A type.
#[cycle(types)]
pub fn show_type(out: &mut Out, tree: &TypeTree) -> Result<(), NoMemory> {
    match &tree.to {
        None => show_btype(out, &tree.from)?,
        Some(to) => {
            put(out, b"(-> ")?;
            show_btype(out, &tree.from)?;
            put(out, b" ")?;
            show_type(out, to.get())?;
            put(out, b")")?;
        }
    }
    put_place(out, tree.at)
}

#[cycle(types)]
fn show_btype(out: &mut Out, tree: &BtypeTree) -> Result<(), NoMemory> {
    if tree.args.len() == 0 {
        show_atype(out, &tree.head)?;
    } else {
        put(out, b"(of ")?;
        show_atype(out, &tree.head)?;
        show_atypes(out, tree.args.as_slice())?;
        put(out, b")")?;
    }
    put_place(out, tree.at)
}

#[cycle(types)]
fn show_atypes(out: &mut Out, parts: &[AtypeTree]) -> Result<(), NoMemory> {
    for i in 0..parts.len() {
        put(out, b" ")?;
        show_atype(out, &parts[i])?;
    }
    Ok(())
}

#[cycle(types)]
fn show_types(out: &mut Out, parts: &[TypeTree]) -> Result<(), NoMemory> {
    for i in 0..parts.len() {
        put(out, b" ")?;
        show_type(out, &parts[i])?;
    }
    Ok(())
}

#[cycle(types)]
fn show_atype(out: &mut Out, tree: &AtypeTree) -> Result<(), NoMemory> {
    match tree {
        AtypeTree::Con { at, name } => {
            show_con(out, name)?;
            put_place(out, *at)
        }
        AtypeTree::Unit { at } => {
            put(out, b"unit")?;
            put_place(out, *at)
        }
        AtypeTree::ListCon { at } => {
            put(out, b"nil")?;
            put_place(out, *at)
        }
        AtypeTree::Arrow { at } => {
            put(out, b"->")?;
            put_place(out, *at)
        }
        AtypeTree::TupleCon { at, commas } => {
            show_commas(out, *commas)?;
            put_place(out, *at)
        }
        AtypeTree::Var { at, name } => {
            show_var(out, name)?;
            put_place(out, *at)
        }
        AtypeTree::Tuple { at, parts } => {
            put(out, b"(tuple")?;
            show_types(out, parts.as_slice())?;
            put(out, b")")?;
            put_place(out, *at)
        }
        AtypeTree::List { at, part } => {
            put(out, b"(list ")?;
            show_type(out, part.get())?;
            put(out, b")")?;
            put_place(out, *at)
        }
    }
}

fn show_class(out: &mut Out, tree: &ClassTree) -> Result<(), NoMemory> {
    match tree {
        ClassTree::Var { at, class, var } => {
            put(out, b" (class ")?;
            show_con(out, class)?;
            put(out, b" ")?;
            show_var(out, var)?;
            put(out, b")")?;
            put_place(out, *at)
        }
        ClassTree::Applied {
            at,
            class,
            var,
            args,
        } => {
            put(out, b" (class ")?;
            show_con(out, class)?;
            put(out, b" ")?;
            show_var(out, var)?;
            show_atypes(out, args.as_slice())?;
            put(out, b")")?;
            put_place(out, *at)
        }
    }
}

fn show_context(out: &mut Out, tree: &ContextTree) -> Result<(), NoMemory> {
    match tree {
        ContextTree::One { at, class } => {
            put(out, b"(one")?;
            show_class(out, class)?;
            put(out, b")")?;
            put_place(out, *at)
        }
        ContextTree::Listed { at, classes } => {
            put(out, b"(listed")?;
            for class in classes.as_slice() {
                show_class(out, class)?;
            }
            put(out, b")")?;
            put_place(out, *at)
        }
    }
}

fn show_qualified(out: &mut Out, tree: &QualifiedType) -> Result<(), NoMemory> {
    match &tree.context {
        None => show_type(out, &tree.ty)?,
        Some(context) => {
            put(out, b"(=> ")?;
            show_context(out, context)?;
            put(out, b" ")?;
            show_type(out, &tree.ty)?;
            put(out, b")")?;
        }
    }
    put_place(out, tree.at)
}

/// A signature.
pub fn show_sig(out: &mut Out, tree: &SigTree) -> Result<(), NoMemory> {
    put(out, b"(sig ")?;
    for name in tree.names.as_slice() {
        show_var(out, name)?;
        put(out, b" ")?;
    }
    show_qualified(out, &tree.ty)?;
    put(out, b")")?;
    put_place(out, tree.at)
}

fn show_word(out: &mut Out, word: FixWord) -> Result<(), NoMemory> {
    match word {
        FixWord::Infixl => put(out, b"(infixl"),
        FixWord::Infixr => put(out, b"(infixr"),
        FixWord::Infix => put(out, b"(infix"),
    }
}

/// A fixity.
pub fn show_fix(out: &mut Out, tree: &FixTree) -> Result<(), NoMemory> {
    show_word(out, tree.word)?;
    if let Some(digit) = tree.digit {
        put(out, b" ")?;
        out.text.push_number(u64::from(digit))?;
    }
    for op in tree.ops.as_slice() {
        show_op(out, op)?;
    }
    put(out, b")")?;
    put_place(out, tree.at)
}
