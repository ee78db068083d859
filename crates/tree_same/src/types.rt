//! Whether types, and the contexts before them, are the same.
ghost use Rattle.std.specs.Prelude.{◌≡◌, ◌↔◌, IsTrue};

use hs_syntax::type_tree::{
    AtypeTree, BtypeTree, ClassTree, ContextTree, QualifiedType, SclassTree, ScontextTree, TypeTree,
};
use mk_base::plain::Plain;
use sqlite_items::Boxed;

/// Whether two types are the same.
#[cycle(types)]
pub fn same_type(a: &TypeTree, b: &TypeTree) -> bool
    ensures { IsTrue result ↔ (a.now ≡ b.now) }
{
    a.at.same(&b.at) && (same_btype(&a.from, &b.from) && same_optional_type(&a.to, &b.to))
}

/// Whether two types that may be there are the same.
#[cycle(types)]
fn same_optional_type(a: &Option<Boxed<TypeTree>>, b: &Option<Boxed<TypeTree>>) -> bool
    ensures { IsTrue result ↔ (a.now ≡ b.now) }
{
    match (a, b) {
        (None, None) => true,
        (Some(x), Some(y)) => same_type(x.get(), y.get()),
        _ => false,
    }
}

/// Whether two types with what they are applied to are the same.
#[cycle(types)]
pub fn same_btype(a: &BtypeTree, b: &BtypeTree) -> bool
    ensures { IsTrue result ↔ (a.now ≡ b.now) }
{
    a.at.same(&b.at)
        && (same_atype(&a.head, &b.head) && same_atypes(a.args.as_slice(), b.args.as_slice()))
}

/// Whether two atomic types are the same.
#[cycle(types)]
pub fn same_atype(a: &AtypeTree, b: &AtypeTree) -> bool
    ensures { IsTrue result ↔ (a.now ≡ b.now) }
{
    match (a, b) {
        (AtypeTree::Con { at: p, name: x }, AtypeTree::Con { at: q, name: y }) => p.same(q)
            && x.same(y),
        (AtypeTree::Unit { at: p }, AtypeTree::Unit { at: q }) => p.same(q),
        (AtypeTree::ListCon { at: p }, AtypeTree::ListCon { at: q }) => p.same(q),
        (AtypeTree::Arrow { at: p }, AtypeTree::Arrow { at: q }) => p.same(q),
        (AtypeTree::TupleCon { at: p, commas: x }, AtypeTree::TupleCon { at: q, commas: y }) =>
            p.same(q) && *x == *y,
        (AtypeTree::Var { at: p, name: x }, AtypeTree::Var { at: q, name: y }) => p.same(q)
            && x.same(y),
        (AtypeTree::Tuple { at: p, parts: x }, AtypeTree::Tuple { at: q, parts: y }) => p.same(q)
            && same_types(x.as_slice(), y.as_slice()),
        (AtypeTree::List { at: p, part: x }, AtypeTree::List { at: q, part: y }) => p.same(q)
            && same_type(x.get(), y.get()),
        _ => false,
    }
}

/// Whether two lists of types are the same.
#[cycle(types)]
fn same_types(a: &[TypeTree], b: &[TypeTree]) -> bool
    ensures { IsTrue result ↔ (a.now ≡ b.now) }
{
    if a.len() != b.len() {
        return false;
    }
    for i in 0..a.len() {
        if !same_type(&a[i], &b[i]) {
            return false;
        }
    }
    true
}

/// Whether two lists of atomic types are the same.
#[cycle(types)]
pub fn same_atypes(a: &[AtypeTree], b: &[AtypeTree]) -> bool
    ensures { IsTrue result ↔ (a.now ≡ b.now) }
{
    if a.len() != b.len() {
        return false;
    }
    for i in 0..a.len() {
        if !same_atype(&a[i], &b[i]) {
            return false;
        }
    }
    true
}

/// Whether two classes of a context are the same.
pub fn same_class(a: &ClassTree, b: &ClassTree) -> bool
    ensures { IsTrue result ↔ (a.now ≡ b.now) }
{
    match (a, b) {
        (
            ClassTree::Var {
                at: p,
                class: x,
                var: s,
            },
            ClassTree::Var {
                at: q,
                class: y,
                var: t,
            },
        ) => p.same(q) && (x.same(y) && s.same(t)),
        (
            ClassTree::Applied {
                at: p,
                class: x,
                var: s,
                args: u,
            },
            ClassTree::Applied {
                at: q,
                class: y,
                var: t,
                args: v,
            },
        ) => p.same(q) && (x.same(y) && (s.same(t) && same_atypes(u.as_slice(), v.as_slice()))),
        _ => false,
    }
}

/// Whether two lists of classes are the same.
fn same_classes(a: &[ClassTree], b: &[ClassTree]) -> bool
    ensures { IsTrue result ↔ (a.now ≡ b.now) }
{
    if a.len() != b.len() {
        return false;
    }
    for i in 0..a.len() {
        if !same_class(&a[i], &b[i]) {
            return false;
        }
    }
    true
}

/// Whether two contexts are the same.
pub fn same_context(a: &ContextTree, b: &ContextTree) -> bool
    ensures { IsTrue result ↔ (a.now ≡ b.now) }
{
    match (a, b) {
        (ContextTree::One { at: p, class: x }, ContextTree::One { at: q, class: y }) => p.same(q)
            && same_class(x, y),
        (ContextTree::Listed { at: p, classes: x }, ContextTree::Listed { at: q, classes: y }) =>
            p.same(q) && same_classes(x.as_slice(), y.as_slice()),
        _ => false,
    }
}

/// Whether two contexts that may be there are the same.
fn same_optional_context(a: &Option<ContextTree>, b: &Option<ContextTree>) -> bool
    ensures { IsTrue result ↔ (a.now ≡ b.now) }
{
    match (a, b) {
        (None, None) => true,
        (Some(x), Some(y)) => same_context(x, y),
        _ => false,
    }
}

/// Whether two types with their contexts are the same.
pub fn same_qualified(a: &QualifiedType, b: &QualifiedType) -> bool
    ensures { IsTrue result ↔ (a.now ≡ b.now) }
{
    a.at.same(&b.at) && (same_optional_context(&a.context, &b.context) && same_type(&a.ty, &b.ty))
}

/// Whether two types with their contexts that may be there are the same.
pub fn same_optional_qualified(
    a: &Option<Boxed<QualifiedType>>,
    b: &Option<Boxed<QualifiedType>>,
) -> bool
    ensures { IsTrue result ↔ (a.now ≡ b.now) }
{
    match (a, b) {
        (None, None) => true,
        (Some(x), Some(y)) => same_qualified(x.get(), y.get()),
        _ => false,
    }
}

/// Whether two classes of a simple context are the same.
pub fn same_sclass(a: &SclassTree, b: &SclassTree) -> bool
    ensures { IsTrue result ↔ (a.now ≡ b.now) }
{
    a.at.same(&b.at) && (a.class.same(&b.class) && a.var.same(&b.var))
}

/// Whether two lists of classes of a simple context are the same.
fn same_sclasses(a: &[SclassTree], b: &[SclassTree]) -> bool
    ensures { IsTrue result ↔ (a.now ≡ b.now) }
{
    if a.len() != b.len() {
        return false;
    }
    for i in 0..a.len() {
        if !same_sclass(&a[i], &b[i]) {
            return false;
        }
    }
    true
}

/// Whether two simple contexts are the same.
pub fn same_scontext(a: &ScontextTree, b: &ScontextTree) -> bool
    ensures { IsTrue result ↔ (a.now ≡ b.now) }
{
    match (a, b) {
        (ScontextTree::One { at: p, class: x }, ScontextTree::One { at: q, class: y }) => p.same(q)
            && same_sclass(x, y),
        (ScontextTree::Listed { at: p, classes: x }, ScontextTree::Listed { at: q, classes: y }) =>
            p.same(q) && same_sclasses(x.as_slice(), y.as_slice()),
        _ => false,
    }
}

/// Whether two simple contexts that may be there are the same.
pub fn same_optional_scontext(a: &Option<ScontextTree>, b: &Option<ScontextTree>) -> bool
    ensures { IsTrue result ↔ (a.now ≡ b.now) }
{
    match (a, b) {
        (None, None) => true,
        (Some(x), Some(y)) => same_scontext(x, y),
        _ => false,
    }
}
