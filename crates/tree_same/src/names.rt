//! Whether operators and constructors are the same.
ghost use Rattle.std.specs.Prelude.{◌≡◌, ◌↔◌, IsTrue};

use hs_syntax::name_ref::{OpName, QopTree};
use hs_syntax::pattern_tree::GconTree;
use mk_base::plain::Plain;

/// Whether two operators are the same.
pub fn same_op(a: &OpName, b: &OpName) -> bool
    ensures { IsTrue result ↔ (a.now ≡ b.now) }
{
    a.at.same(&b.at) && a.name.same(&b.name)
}

/// Whether two operators are the same.
pub fn same_qop(a: &QopTree, b: &QopTree) -> bool
    ensures { IsTrue result ↔ (a.now ≡ b.now) }
{
    match (a, b) {
        (QopTree::Var { at: p, name: x }, QopTree::Var { at: q, name: y }) => p.same(q)
            && x.same(y),
        (QopTree::Con { at: p, name: x }, QopTree::Con { at: q, name: y }) => p.same(q)
            && x.same(y),
        _ => false,
    }
}

/// Whether two lists of operators are the same.
pub fn same_qops(a: &[QopTree], b: &[QopTree]) -> bool
    ensures { IsTrue result ↔ (a.now ≡ b.now) }
{
    if a.len() != b.len() {
        return false;
    }
    for i in 0..a.len() {
        if !same_qop(&a[i], &b[i]) {
            return false;
        }
    }
    true
}

/// Whether two constructors are the same.
pub fn same_gcon(a: &GconTree, b: &GconTree) -> bool
    ensures { IsTrue result ↔ (a.now ≡ b.now) }
{
    match (a, b) {
        (GconTree::Con { at: p, name: x }, GconTree::Con { at: q, name: y }) => p.same(q)
            && x.same(y),
        (GconTree::Unit { at: p }, GconTree::Unit { at: q }) => p.same(q),
        (GconTree::List { at: p }, GconTree::List { at: q }) => p.same(q),
        (GconTree::Tuple { at: p, commas: x }, GconTree::Tuple { at: q, commas: y }) => p.same(q)
            && *x == *y,
        _ => false,
    }
}
