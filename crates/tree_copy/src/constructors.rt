//! Copies of constructors with their fields, and derived classes.
ghost use Rattle.std.specs.Prelude.{◌≡◌, IfOk};

use crate::names::copy_op;
use crate::types::{copy_atype, copy_btype, copy_type};
use hs_syntax::item::{ConstrTree, CtyTree, DerivingTree, FieldTree, FieldType, StrictTree};
use mk_base::list::List;
use mk_base::memory::NoMemory;
use mk_base::plain::Plain;
use std::alloc::Global;

/// A field without a name once more.
fn copy_strict(alloc: Global, a: &StrictTree) -> Result<StrictTree, NoMemory>
    ensures { IfOk result (λ c. c ≡ a.now) }
{
    Ok(StrictTree {
        at: a.at,
        strict: a.strict,
        ty: copy_atype(alloc, &a.ty)?,
    })
}

/// A list of fields without names once more.
fn copy_stricts(alloc: Global, a: &[StrictTree]) -> Result<List<StrictTree>, NoMemory>
    ensures { IfOk result (λ c. c ≡ a.now) }
{
    let mut out = Vec::new(alloc);
    for part in a {
        out.push(copy_strict(alloc, part)?)?;
    }
    Ok(List::from_vec(out))
}

/// A field at a side of an operator once more.
fn copy_cty(alloc: Global, a: &CtyTree) -> Result<CtyTree, NoMemory>
    ensures { IfOk result (λ c. c ≡ a.now) }
{
    match a {
        CtyTree::Plain { at, ty } => Ok(CtyTree::Plain {
            at: *at,
            ty: copy_btype(alloc, ty)?,
        }),
        CtyTree::Strict { at, ty } => Ok(CtyTree::Strict {
            at: *at,
            ty: copy_atype(alloc, ty)?,
        }),
    }
}

/// What a field with a name holds once more.
fn copy_field_type(alloc: Global, a: &FieldType) -> Result<FieldType, NoMemory>
    ensures { IfOk result (λ c. c ≡ a.now) }
{
    match a {
        FieldType::Plain { at, ty } => Ok(FieldType::Plain {
            at: *at,
            ty: copy_type(alloc, ty)?,
        }),
        FieldType::Strict { at, ty } => Ok(FieldType::Strict {
            at: *at,
            ty: copy_atype(alloc, ty)?,
        }),
    }
}

/// A field with a name once more.
fn copy_field(alloc: Global, a: &FieldTree) -> Result<FieldTree, NoMemory>
    ensures { IfOk result (λ c. c ≡ a.now) }
{
    Ok(FieldTree {
        at: a.at,
        names: a.names.copy(alloc)?,
        ty: copy_field_type(alloc, &a.ty)?,
    })
}

/// A list of fields with names once more.
fn copy_fields(alloc: Global, a: &[FieldTree]) -> Result<List<FieldTree>, NoMemory>
    ensures { IfOk result (λ c. c ≡ a.now) }
{
    let mut out = Vec::new(alloc);
    for part in a {
        out.push(copy_field(alloc, part)?)?;
    }
    Ok(List::from_vec(out))
}

/// A constructor with its fields once more.
pub fn copy_constr(alloc: Global, a: &ConstrTree) -> Result<ConstrTree, NoMemory>
    ensures { IfOk result (λ c. c ≡ a.now) }
{
    match a {
        ConstrTree::Plain { at, con, fields } => Ok(ConstrTree::Plain {
            at: *at,
            con: con.copy(alloc)?,
            fields: copy_stricts(alloc, fields.as_slice())?,
        }),
        ConstrTree::Infix {
            at,
            left,
            op,
            right,
        } => Ok(ConstrTree::Infix {
            at: *at,
            left: copy_cty(alloc, left)?,
            op: copy_op(alloc, op)?,
            right: copy_cty(alloc, right)?,
        }),
        ConstrTree::Record { at, con, fields } => Ok(ConstrTree::Record {
            at: *at,
            con: con.copy(alloc)?,
            fields: copy_fields(alloc, fields.as_slice())?,
        }),
    }
}

/// A list of constructors with their fields once more.
fn copy_constrs(alloc: Global, a: &[ConstrTree]) -> Result<List<ConstrTree>, NoMemory>
    ensures { IfOk result (λ c. c ≡ a.now) }
{
    let mut out = Vec::new(alloc);
    for part in a {
        out.push(copy_constr(alloc, part)?)?;
    }
    Ok(List::from_vec(out))
}

/// A list of constructors once more, where it is there.
pub fn copy_optional_constrs(
    alloc: Global,
    a: &Option<List<ConstrTree>>,
) -> Result<Option<List<ConstrTree>>, NoMemory>
    ensures { IfOk result (λ c. c ≡ a.now) }
{
    match a {
        None => Ok(None),
        Some(x) => Ok(Some(copy_constrs(alloc, x.as_slice())?)),
    }
}

/// A list of derived classes once more.
pub fn copy_deriving(alloc: Global, a: &DerivingTree) -> Result<DerivingTree, NoMemory>
    ensures { IfOk result (λ c. c ≡ a.now) }
{
    match a {
        DerivingTree::One { at, class } => Ok(DerivingTree::One {
            at: *at,
            class: class.copy(alloc)?,
        }),
        DerivingTree::Listed { at, classes } => Ok(DerivingTree::Listed {
            at: *at,
            classes: classes.copy(alloc)?,
        }),
    }
}

/// A list of derived classes once more, where it is there.
pub fn copy_optional_deriving(
    alloc: Global,
    a: &Option<DerivingTree>,
) -> Result<Option<DerivingTree>, NoMemory>
    ensures { IfOk result (λ c. c ≡ a.now) }
{
    match a {
        None => Ok(None),
        Some(x) => Ok(Some(copy_deriving(alloc, x)?)),
    }
}
