//! Whether patterns and left sides are the same.
ghost use Rattle.std.specs.Prelude.{◌≡◌, ◌↔◌, IsTrue};

use crate::names::{same_gcon, same_op};
use hs_syntax::pattern_tree::{ApatTree, FpatTree, LhsTree, PatLink, PatOperand, PatTree};
use mk_base::plain::Plain;
use sqlite_items::Boxed;

/// Whether two patterns are the same.
#[cycle(patterns)]
pub fn same_pattern(a: &PatTree, b: &PatTree) -> bool
    ensures { IsTrue result ↔ (a.now ≡ b.now) }
{
    a.at.same(&b.at)
        && (same_pat_links(a.links.as_slice(), b.links.as_slice())
            && same_pat_operand(&a.last, &b.last))
}

/// Whether two lists of patterns are the same.
#[cycle(patterns)]
fn same_patterns(a: &[PatTree], b: &[PatTree]) -> bool
    ensures { IsTrue result ↔ (a.now ≡ b.now) }
{
    if a.len() != b.len() {
        return false;
    }
    for i in 0..a.len() {
        if !same_pattern(&a[i], &b[i]) {
            return false;
        }
    }
    true
}

/// Whether two operands of patterns with the operators behind them are the same.
#[cycle(patterns)]
fn same_pat_link(a: &PatLink, b: &PatLink) -> bool
    ensures { IsTrue result ↔ (a.now ≡ b.now) }
{
    a.at.same(&b.at) && (same_pat_operand(&a.operand, &b.operand) && same_op(&a.op, &b.op))
}

/// Whether two lists of operands of patterns with the operators behind them are the same.
#[cycle(patterns)]
fn same_pat_links(a: &[PatLink], b: &[PatLink]) -> bool
    ensures { IsTrue result ↔ (a.now ≡ b.now) }
{
    if a.len() != b.len() {
        return false;
    }
    for i in 0..a.len() {
        if !same_pat_link(&a[i], &b[i]) {
            return false;
        }
    }
    true
}

/// Whether two operands of patterns are the same.
#[cycle(patterns)]
fn same_pat_operand(a: &PatOperand, b: &PatOperand) -> bool
    ensures { IsTrue result ↔ (a.now ≡ b.now) }
{
    match (a, b) {
        (
            PatOperand::Number {
                at: p,
                minus: x,
                number: s,
            },
            PatOperand::Number {
                at: q,
                minus: y,
                number: t,
            },
        ) => p.same(q) && (*x == *y && s.same(t)),
        (
            PatOperand::Applied {
                at: p,
                con: x,
                args: s,
            },
            PatOperand::Applied {
                at: q,
                con: y,
                args: t,
            },
        ) => p.same(q) && (same_gcon(x, y) && same_apats(s.as_slice(), t.as_slice())),
        (PatOperand::Single { at: p, pattern: x }, PatOperand::Single { at: q, pattern: y }) =>
            p.same(q) && same_apat(x, y),
        _ => false,
    }
}

/// Whether two atomic patterns are the same.
#[cycle(patterns)]
pub fn same_apat(a: &ApatTree, b: &ApatTree) -> bool
    ensures { IsTrue result ↔ (a.now ≡ b.now) }
{
    match (a, b) {
        (
            ApatTree::Var {
                at: p,
                name: x,
                pattern: s,
            },
            ApatTree::Var {
                at: q,
                name: y,
                pattern: t,
            },
        ) => p.same(q) && (x.same(y) && same_optional_apat(s, t)),
        (ApatTree::Con { at: p, con: x }, ApatTree::Con { at: q, con: y }) => p.same(q)
            && same_gcon(x, y),
        (
            ApatTree::Record {
                at: p,
                con: x,
                fields: s,
            },
            ApatTree::Record {
                at: q,
                con: y,
                fields: t,
            },
        ) => p.same(q) && (x.same(y) && same_fpats(s.as_slice(), t.as_slice())),
        (ApatTree::Literal { at: p, literal: x }, ApatTree::Literal { at: q, literal: y }) =>
            p.same(q) && x.same(y),
        (ApatTree::Wild { at: p }, ApatTree::Wild { at: q }) => p.same(q),
        (ApatTree::Tuple { at: p, parts: x }, ApatTree::Tuple { at: q, parts: y }) => p.same(q)
            && same_patterns(x.as_slice(), y.as_slice()),
        (ApatTree::List { at: p, parts: x }, ApatTree::List { at: q, parts: y }) => p.same(q)
            && same_patterns(x.as_slice(), y.as_slice()),
        (ApatTree::Lazy { at: p, pattern: x }, ApatTree::Lazy { at: q, pattern: y }) => p.same(q)
            && same_apat(x.get(), y.get()),
        _ => false,
    }
}

/// Whether two atomic patterns that may be there are the same.
#[cycle(patterns)]
fn same_optional_apat(a: &Option<Boxed<ApatTree>>, b: &Option<Boxed<ApatTree>>) -> bool
    ensures { IsTrue result ↔ (a.now ≡ b.now) }
{
    match (a, b) {
        (None, None) => true,
        (Some(x), Some(y)) => same_apat(x.get(), y.get()),
        _ => false,
    }
}

/// Whether two lists of atomic patterns are the same.
#[cycle(patterns)]
pub fn same_apats(a: &[ApatTree], b: &[ApatTree]) -> bool
    ensures { IsTrue result ↔ (a.now ≡ b.now) }
{
    if a.len() != b.len() {
        return false;
    }
    for i in 0..a.len() {
        if !same_apat(&a[i], &b[i]) {
            return false;
        }
    }
    true
}

/// Whether two fields with their patterns are the same.
#[cycle(patterns)]
fn same_fpat(a: &FpatTree, b: &FpatTree) -> bool
    ensures { IsTrue result ↔ (a.now ≡ b.now) }
{
    a.at.same(&b.at) && (a.name.same(&b.name) && same_pattern(&a.pattern, &b.pattern))
}

/// Whether two lists of fields with their patterns are the same.
#[cycle(patterns)]
fn same_fpats(a: &[FpatTree], b: &[FpatTree]) -> bool
    ensures { IsTrue result ↔ (a.now ≡ b.now) }
{
    if a.len() != b.len() {
        return false;
    }
    for i in 0..a.len() {
        if !same_fpat(&a[i], &b[i]) {
            return false;
        }
    }
    true
}

/// Whether two left sides are the same.
#[cycle(left_sides)]
pub fn same_lhs(a: &LhsTree, b: &LhsTree) -> bool
    ensures { IsTrue result ↔ (a.now ≡ b.now) }
{
    match (a, b) {
        (
            LhsTree::Function {
                at: p,
                name: x,
                args: s,
            },
            LhsTree::Function {
                at: q,
                name: y,
                args: t,
            },
        ) => p.same(q) && (x.same(y) && same_apats(s.as_slice(), t.as_slice())),
        (
            LhsTree::Applied {
                at: p,
                lhs: x,
                args: s,
            },
            LhsTree::Applied {
                at: q,
                lhs: y,
                args: t,
            },
        ) => p.same(q) && (same_lhs(x.get(), y.get()) && same_apats(s.as_slice(), t.as_slice())),
        (
            LhsTree::Infix {
                at: p,
                left: x,
                op: s,
                right: u,
            },
            LhsTree::Infix {
                at: q,
                left: y,
                op: t,
                right: v,
            },
        ) => p.same(q) && (same_pattern(x, y) && (same_op(s, t) && same_pattern(u, v))),
        (LhsTree::Pattern { at: p, pattern: x }, LhsTree::Pattern { at: q, pattern: y }) => p.same(
            q,
        ) && same_pattern(x, y),
        _ => false,
    }
}
