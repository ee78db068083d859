//! Copies of patterns and left sides.
ghost use Rattle.std.specs.Prelude.{◌≡◌, IfOk};

use crate::names::{copy_gcon, copy_op};
use hs_syntax::pattern_tree::{ApatTree, FpatTree, LhsTree, PatLink, PatOperand, PatTree};
use mk_base::memory::NoMemory;
use mk_base::plain::Plain;
use sqlite_items::{Boxed, Items};
use std::alloc::Global;

/// A pattern once more.
#[cycle(patterns)]
pub fn copy_pattern(alloc: Global, a: &PatTree) -> Result<PatTree, NoMemory>
    ensures { IfOk result (λ c. c ≡ a.now) }
{
    Ok(PatTree {
        at: a.at,
        links: copy_pat_links(alloc, a.links.as_slice())?,
        last: copy_pat_operand(alloc, &a.last)?,
    })
}

/// A list of patterns once more.
#[cycle(patterns)]
fn copy_patterns(alloc: Global, a: &[PatTree]) -> Result<Items<PatTree>, NoMemory>
    ensures { IfOk result (λ c. c ≡ a.now) }
{
    let mut out = Vec::new(alloc);
    for part in a {
        out.push(copy_pattern(alloc, part)?)?;
    }
    Ok(Items::from_vec(out))
}

/// An operand of a pattern with the operator behind it once more.
#[cycle(patterns)]
fn copy_pat_link(alloc: Global, a: &PatLink) -> Result<PatLink, NoMemory>
    ensures { IfOk result (λ c. c ≡ a.now) }
{
    Ok(PatLink {
        at: a.at,
        operand: copy_pat_operand(alloc, &a.operand)?,
        op: copy_op(alloc, &a.op)?,
    })
}

/// A list of operands of patterns with the operators behind them once more.
#[cycle(patterns)]
fn copy_pat_links(alloc: Global, a: &[PatLink]) -> Result<Items<PatLink>, NoMemory>
    ensures { IfOk result (λ c. c ≡ a.now) }
{
    let mut out = Vec::new(alloc);
    for part in a {
        out.push(copy_pat_link(alloc, part)?)?;
    }
    Ok(Items::from_vec(out))
}

/// An operand of a pattern once more.
#[cycle(patterns)]
fn copy_pat_operand(alloc: Global, a: &PatOperand) -> Result<PatOperand, NoMemory>
    ensures { IfOk result (λ c. c ≡ a.now) }
{
    match a {
        PatOperand::Number { at, minus, number } => Ok(PatOperand::Number {
            at: *at,
            minus: *minus,
            number: number.copy(alloc)?,
        }),
        PatOperand::Applied { at, con, args } => Ok(PatOperand::Applied {
            at: *at,
            con: copy_gcon(alloc, con)?,
            args: copy_apats(alloc, args.as_slice())?,
        }),
        PatOperand::Single { at, pattern } => Ok(PatOperand::Single {
            at: *at,
            pattern: copy_apat(alloc, pattern)?,
        }),
    }
}

/// An atomic pattern once more.
#[cycle(patterns)]
pub fn copy_apat(alloc: Global, a: &ApatTree) -> Result<ApatTree, NoMemory>
    ensures { IfOk result (λ c. c ≡ a.now) }
{
    match a {
        ApatTree::Var { at, name, pattern } => Ok(ApatTree::Var {
            at: *at,
            name: name.copy(alloc)?,
            pattern: copy_optional_apat(alloc, pattern)?,
        }),
        ApatTree::Con { at, con } => Ok(ApatTree::Con {
            at: *at,
            con: copy_gcon(alloc, con)?,
        }),
        ApatTree::Record { at, con, fields } => Ok(ApatTree::Record {
            at: *at,
            con: con.copy(alloc)?,
            fields: copy_fpats(alloc, fields.as_slice())?,
        }),
        ApatTree::Literal { at, literal } => Ok(ApatTree::Literal {
            at: *at,
            literal: literal.copy(alloc)?,
        }),
        ApatTree::Wild { at } => Ok(ApatTree::Wild { at: *at }),
        ApatTree::Tuple { at, parts } => Ok(ApatTree::Tuple {
            at: *at,
            parts: copy_patterns(alloc, parts.as_slice())?,
        }),
        ApatTree::List { at, parts } => Ok(ApatTree::List {
            at: *at,
            parts: copy_patterns(alloc, parts.as_slice())?,
        }),
        ApatTree::Lazy { at, pattern } => Ok(ApatTree::Lazy {
            at: *at,
            pattern: boxed_apat(alloc, pattern.get())?,
        }),
    }
}

/// An atomic pattern once more, in a box.
#[cycle(patterns)]
fn boxed_apat(alloc: Global, a: &ApatTree) -> Result<Boxed<ApatTree>, NoMemory>
    ensures { IfOk result (λ c. c ≡ a.now) }
{
    let copy = copy_apat(alloc, a)?;
    Ok(Boxed::new(alloc, copy)?)
}

/// An atomic pattern once more, where it is there.
#[cycle(patterns)]
fn copy_optional_apat(
    alloc: Global,
    a: &Option<Boxed<ApatTree>>,
) -> Result<Option<Boxed<ApatTree>>, NoMemory>
    ensures { IfOk result (λ c. c ≡ a.now) }
{
    match a {
        None => Ok(None),
        Some(x) => Ok(Some(boxed_apat(alloc, x.get())?)),
    }
}

/// A list of atomic patterns once more.
#[cycle(patterns)]
pub fn copy_apats(alloc: Global, a: &[ApatTree]) -> Result<Items<ApatTree>, NoMemory>
    ensures { IfOk result (λ c. c ≡ a.now) }
{
    let mut out = Vec::new(alloc);
    for part in a {
        out.push(copy_apat(alloc, part)?)?;
    }
    Ok(Items::from_vec(out))
}

/// A field with its pattern once more.
#[cycle(patterns)]
fn copy_fpat(alloc: Global, a: &FpatTree) -> Result<FpatTree, NoMemory>
    ensures { IfOk result (λ c. c ≡ a.now) }
{
    Ok(FpatTree {
        at: a.at,
        name: a.name.copy(alloc)?,
        pattern: copy_pattern(alloc, &a.pattern)?,
    })
}

/// A list of fields with their patterns once more.
#[cycle(patterns)]
fn copy_fpats(alloc: Global, a: &[FpatTree]) -> Result<Items<FpatTree>, NoMemory>
    ensures { IfOk result (λ c. c ≡ a.now) }
{
    let mut out = Vec::new(alloc);
    for part in a {
        out.push(copy_fpat(alloc, part)?)?;
    }
    Ok(Items::from_vec(out))
}

/// A left side once more.
#[cycle(left_sides)]
pub fn copy_lhs(alloc: Global, a: &LhsTree) -> Result<LhsTree, NoMemory>
    ensures { IfOk result (λ c. c ≡ a.now) }
{
    match a {
        LhsTree::Function { at, name, args } => Ok(LhsTree::Function {
            at: *at,
            name: name.copy(alloc)?,
            args: copy_apats(alloc, args.as_slice())?,
        }),
        LhsTree::Applied { at, lhs, args } => Ok(LhsTree::Applied {
            at: *at,
            lhs: boxed_lhs(alloc, lhs.get())?,
            args: copy_apats(alloc, args.as_slice())?,
        }),
        LhsTree::Infix {
            at,
            left,
            op,
            right,
        } => Ok(LhsTree::Infix {
            at: *at,
            left: copy_pattern(alloc, left)?,
            op: copy_op(alloc, op)?,
            right: copy_pattern(alloc, right)?,
        }),
        LhsTree::Pattern { at, pattern } => Ok(LhsTree::Pattern {
            at: *at,
            pattern: copy_pattern(alloc, pattern)?,
        }),
    }
}

/// A left side once more, in a box.
#[cycle(left_sides)]
fn boxed_lhs(alloc: Global, a: &LhsTree) -> Result<Boxed<LhsTree>, NoMemory>
    ensures { IfOk result (λ c. c ≡ a.now) }
{
    let copy = copy_lhs(alloc, a)?;
    Ok(Boxed::new(alloc, copy)?)
}
