//! Whether constructors with their fields, and derived classes, are the same.
ghost use Rattle.std.specs.Prelude.{◌≡◌, ◌↔◌, IsTrue};

use crate::names::same_op;
use crate::types::{same_atype, same_btype, same_type};
use hs_syntax::item::{ConstrTree, CtyTree, DerivingTree, FieldTree, FieldType, StrictTree};
use mk_base::list::List;
use mk_base::plain::Plain;

/// Whether two fields without names are the same.
fn same_strict(a: &StrictTree, b: &StrictTree) -> bool
    ensures { IsTrue result ↔ (a.now ≡ b.now) }
{
    a.at.same(&b.at) && (a.strict == b.strict && same_atype(&a.ty, &b.ty))
}

/// Whether two lists of fields without names are the same.
fn same_stricts(a: &[StrictTree], b: &[StrictTree]) -> bool
    ensures { IsTrue result ↔ (a.now ≡ b.now) }
{
    if a.len() != b.len() {
        return false;
    }
    for i in 0..a.len() {
        if !same_strict(&a[i], &b[i]) {
            return false;
        }
    }
    true
}

/// Whether two fields at a side of an operator are the same.
fn same_cty(a: &CtyTree, b: &CtyTree) -> bool
    ensures { IsTrue result ↔ (a.now ≡ b.now) }
{
    match (a, b) {
        (CtyTree::Plain { at: p, ty: x }, CtyTree::Plain { at: q, ty: y }) => p.same(q)
            && same_btype(x, y),
        (CtyTree::Strict { at: p, ty: x }, CtyTree::Strict { at: q, ty: y }) => p.same(q)
            && same_atype(x, y),
        _ => false,
    }
}

/// Whether what two fields with names hold are the same.
fn same_field_type(a: &FieldType, b: &FieldType) -> bool
    ensures { IsTrue result ↔ (a.now ≡ b.now) }
{
    match (a, b) {
        (FieldType::Plain { at: p, ty: x }, FieldType::Plain { at: q, ty: y }) => p.same(q)
            && same_type(x, y),
        (FieldType::Strict { at: p, ty: x }, FieldType::Strict { at: q, ty: y }) => p.same(q)
            && same_atype(x, y),
        _ => false,
    }
}

/// Whether two fields with names are the same.
fn same_field(a: &FieldTree, b: &FieldTree) -> bool
    ensures { IsTrue result ↔ (a.now ≡ b.now) }
{
    a.at.same(&b.at) && (a.names.same(&b.names) && same_field_type(&a.ty, &b.ty))
}

/// Whether two lists of fields with names are the same.
fn same_fields(a: &[FieldTree], b: &[FieldTree]) -> bool
    ensures { IsTrue result ↔ (a.now ≡ b.now) }
{
    if a.len() != b.len() {
        return false;
    }
    for i in 0..a.len() {
        if !same_field(&a[i], &b[i]) {
            return false;
        }
    }
    true
}

/// Whether two constructors with their fields are the same.
pub fn same_constr(a: &ConstrTree, b: &ConstrTree) -> bool
    ensures { IsTrue result ↔ (a.now ≡ b.now) }
{
    match (a, b) {
        (
            ConstrTree::Plain {
                at: p,
                con: x,
                fields: s,
            },
            ConstrTree::Plain {
                at: q,
                con: y,
                fields: t,
            },
        ) => p.same(q) && (x.same(y) && same_stricts(s.as_slice(), t.as_slice())),
        (
            ConstrTree::Infix {
                at: p,
                left: x,
                op: s,
                right: u,
            },
            ConstrTree::Infix {
                at: q,
                left: y,
                op: t,
                right: v,
            },
        ) => p.same(q) && (same_cty(x, y) && (same_op(s, t) && same_cty(u, v))),
        (
            ConstrTree::Record {
                at: p,
                con: x,
                fields: s,
            },
            ConstrTree::Record {
                at: q,
                con: y,
                fields: t,
            },
        ) => p.same(q) && (x.same(y) && same_fields(s.as_slice(), t.as_slice())),
        _ => false,
    }
}

/// Whether two lists of constructors with their fields are the same.
fn same_constrs(a: &[ConstrTree], b: &[ConstrTree]) -> bool
    ensures { IsTrue result ↔ (a.now ≡ b.now) }
{
    if a.len() != b.len() {
        return false;
    }
    for i in 0..a.len() {
        if !same_constr(&a[i], &b[i]) {
            return false;
        }
    }
    true
}

/// Whether two lists of constructors that may be there are the same.
pub fn same_optional_constrs(a: &Option<List<ConstrTree>>, b: &Option<List<ConstrTree>>) -> bool
    ensures { IsTrue result ↔ (a.now ≡ b.now) }
{
    match (a, b) {
        (None, None) => true,
        (Some(x), Some(y)) => same_constrs(x.as_slice(), y.as_slice()),
        _ => false,
    }
}

/// Whether two lists of derived classes are the same.
pub fn same_deriving(a: &DerivingTree, b: &DerivingTree) -> bool
    ensures { IsTrue result ↔ (a.now ≡ b.now) }
{
    match (a, b) {
        (DerivingTree::One { at: p, class: x }, DerivingTree::One { at: q, class: y }) => p.same(q)
            && x.same(y),
        (DerivingTree::Listed { at: p, classes: x }, DerivingTree::Listed { at: q, classes: y }) =>
            p.same(q) && x.same(y),
        _ => false,
    }
}

/// Whether two lists of derived classes that may be there are the same.
pub fn same_optional_deriving(a: &Option<DerivingTree>, b: &Option<DerivingTree>) -> bool
    ensures { IsTrue result ↔ (a.now ≡ b.now) }
{
    match (a, b) {
        (None, None) => true,
        (Some(x), Some(y)) => same_deriving(x, y),
        _ => false,
    }
}
