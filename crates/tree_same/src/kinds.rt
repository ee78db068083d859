//! Whether kinds, and the parameters of abstract types, are the same.
ghost use Rattle.std.specs.Prelude.{◌≡◌, ◌↔◌, IsTrue};

use hs_syntax::item::{AkindTree, KindTree, ParamTree};
use mk_base::plain::Plain;
use sqlite_items::Boxed;

/// Whether two kinds are the same.
#[cycle(kinds)]
pub fn same_kind(a: &KindTree, b: &KindTree) -> bool
    ensures { IsTrue result ↔ (a.now ≡ b.now) }
{
    a.at.same(&b.at) && (same_akind(&a.from, &b.from) && same_optional_kind(&a.to, &b.to))
}

/// Whether two kinds that may be there are the same.
#[cycle(kinds)]
fn same_optional_kind(a: &Option<Boxed<KindTree>>, b: &Option<Boxed<KindTree>>) -> bool
    ensures { IsTrue result ↔ (a.now ≡ b.now) }
{
    match (a, b) {
        (None, None) => true,
        (Some(x), Some(y)) => same_kind(x.get(), y.get()),
        _ => false,
    }
}

/// Whether two atomic kinds are the same.
#[cycle(kinds)]
fn same_akind(a: &AkindTree, b: &AkindTree) -> bool
    ensures { IsTrue result ↔ (a.now ≡ b.now) }
{
    match (a, b) {
        (AkindTree::Star { at: p }, AkindTree::Star { at: q }) => p.same(q),
        (AkindTree::Paren { at: p, kind: x }, AkindTree::Paren { at: q, kind: y }) => p.same(q)
            && same_kind(x.get(), y.get()),
        _ => false,
    }
}

/// Whether two parameters of an abstract type are the same.
fn same_param(a: &ParamTree, b: &ParamTree) -> bool
    ensures { IsTrue result ↔ (a.now ≡ b.now) }
{
    match (a, b) {
        (ParamTree::Plain { at: p, name: x }, ParamTree::Plain { at: q, name: y }) => p.same(q)
            && x.same(y),
        (
            ParamTree::Kinded {
                at: p,
                name: x,
                kind: s,
            },
            ParamTree::Kinded {
                at: q,
                name: y,
                kind: t,
            },
        ) => p.same(q) && (x.same(y) && same_kind(s, t)),
        _ => false,
    }
}

/// Whether two lists of parameters of an abstract type are the same.
pub fn same_params(a: &[ParamTree], b: &[ParamTree]) -> bool
    ensures { IsTrue result ↔ (a.now ≡ b.now) }
{
    if a.len() != b.len() {
        return false;
    }
    for i in 0..a.len() {
        if !same_param(&a[i], &b[i]) {
            return false;
        }
    }
    true
}
