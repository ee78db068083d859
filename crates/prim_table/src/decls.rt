//! All declarations, in the order of a face.
ghost use Rattle.std.specs.Prelude.{◌≡◌, ◌++◌, ◌∷◌, [], IfOk, OnOk};
ghost use Rattle.prim_table.specs.Types as spec;

use crate::class_decls::{
    bounded_class, enum_class, eq_class, floating_class, fractional_class, functor_class,
    integral_class, monad_class, num_class, ord_class, read_class, real_class, real_frac_class,
    show_class,
};
use crate::types::{constant, data_type, lists, opaque, synonym, tuples, values};
use face_model::decl::{Constr, Decl};
use mk_base::list::List;
use mk_base::memory::NoMemory;
use std::alloc::Global;

fn booleans(alloc: Global, out: &mut List<Decl>) -> Result<(), NoMemory>
    ensures { OnOk result (out.new ≡ out.old ++ spec.booleans ∷ []) }
{
    let mut constrs = List::new(alloc);
    constant(alloc, &mut constrs, b"False")?;
    constant(alloc, &mut constrs, b"True")?;
    data_type(alloc, out, b"Bool", 0, constrs)
}

fn three_constants(
    alloc: Global,
    first: &[u8],
    second: &[u8],
    third: &[u8],
) -> Result<List<Constr>, NoMemory>
    ensures { IfOk result (λ cs. cs ≡ spec.constant first.now ∷ spec.constant second.now ∷ spec.constant third.now ∷ []) }
{
    let mut constrs = List::new(alloc);
    constant(alloc, &mut constrs, first)?;
    constant(alloc, &mut constrs, second)?;
    constant(alloc, &mut constrs, third)?;
    Ok(constrs)
}

fn orderings(alloc: Global, out: &mut List<Decl>) -> Result<(), NoMemory>
    ensures { OnOk result (out.new ≡ out.old ++ spec.orderings ∷ []) }
{
    let constrs = three_constants(alloc, b"LT", b"EQ", b"GT")?;
    data_type(alloc, out, b"Ordering", 0, constrs)
}

fn units(alloc: Global, out: &mut List<Decl>) -> Result<(), NoMemory>
    ensures { OnOk result (out.new ≡ out.old ++ spec.units ∷ []) }
{
    let mut constrs = List::new(alloc);
    constant(alloc, &mut constrs, b"()")?;
    data_type(alloc, out, b"()", 0, constrs)
}

/// The unit type, tuples of 2 to 15 parts, and functions.
fn special_types(alloc: Global, out: &mut List<Decl>) -> Result<(), NoMemory>
    ensures { OnOk result (out.new ≡ spec.special_types out.old) }
{
    units(alloc, out)?;
    tuples(alloc, out, 14)?;
    opaque(alloc, out, b"->", 2)
}

fn first_types(alloc: Global, out: &mut List<Decl>) -> Result<(), NoMemory>
    ensures { OnOk result (out.new ≡ spec.first_types out.old) }
{
    booleans(alloc, out)?;
    bounded_class(alloc, out)?;
    opaque(alloc, out, b"Char", 0)?;
    opaque(alloc, out, b"Double", 0)?;
    enum_class(alloc, out)
}

fn second_types(alloc: Global, out: &mut List<Decl>) -> Result<(), NoMemory>
    ensures { OnOk result (out.new ≡ spec.second_types out.old) }
{
    eq_class(alloc, out)?;
    opaque(alloc, out, b"Float", 0)?;
    floating_class(alloc, out)?;
    fractional_class(alloc, out)
}

fn third_types(alloc: Global, out: &mut List<Decl>) -> Result<(), NoMemory>
    ensures { OnOk result (out.new ≡ spec.third_types out.old) }
{
    functor_class(alloc, out)?;
    opaque(alloc, out, b"IO", 1)?;
    opaque(alloc, out, b"Int", 0)?;
    opaque(alloc, out, b"Integer", 0)?;
    integral_class(alloc, out)
}

fn fourth_types(alloc: Global, out: &mut List<Decl>) -> Result<(), NoMemory>
    ensures { OnOk result (out.new ≡ spec.fourth_types out.old) }
{
    monad_class(alloc, out)?;
    num_class(alloc, out)?;
    ord_class(alloc, out)?;
    orderings(alloc, out)
}

fn fifth_types(alloc: Global, out: &mut List<Decl>) -> Result<(), NoMemory>
    ensures { OnOk result (out.new ≡ spec.fifth_types out.old) }
{
    opaque(alloc, out, b"Ratio", 1)?;
    synonym(alloc, out, b"Rational", 0, b"@RZ")?;
    read_class(alloc, out)?;
    synonym(alloc, out, b"ReadS", 1, b">[C[,0[C")?;
    real_class(alloc, out)
}

fn sixth_types(alloc: Global, out: &mut List<Decl>) -> Result<(), NoMemory>
    ensures { OnOk result (out.new ≡ spec.sixth_types out.old) }
{
    real_frac_class(alloc, out)?;
    show_class(alloc, out)?;
    synonym(alloc, out, b"ShowS", 0, b">[C[C")?;
    synonym(alloc, out, b"String", 0, b"[C")
}

/// Up to `Fractional`.
fn lower_types(alloc: Global, out: &mut List<Decl>) -> Result<(), NoMemory>
    ensures { OnOk result (out.new ≡ spec.lower_types out.old) }
{
    first_types(alloc, out)?;
    second_types(alloc, out)
}

/// From `Functor` to `Ordering`.
fn middle_types(alloc: Global, out: &mut List<Decl>) -> Result<(), NoMemory>
    ensures { OnOk result (out.new ≡ spec.middle_types out.old) }
{
    third_types(alloc, out)?;
    fourth_types(alloc, out)
}

/// From `Ratio` on.
fn upper_types(alloc: Global, out: &mut List<Decl>) -> Result<(), NoMemory>
    ensures { OnOk result (out.new ≡ spec.upper_types out.old) }
{
    fifth_types(alloc, out)?;
    sixth_types(alloc, out)
}

fn up_to_orderings(alloc: Global, out: &mut List<Decl>) -> Result<(), NoMemory>
    ensures { OnOk result (out.new ≡ spec.up_to_orderings out.old) }
{
    lower_types(alloc, out)?;
    middle_types(alloc, out)
}

/// The types and classes that have names.
fn named_types(alloc: Global, out: &mut List<Decl>) -> Result<(), NoMemory>
    ensures { OnOk result (out.new ≡ spec.named_types out.old) }
{
    up_to_orderings(alloc, out)?;
    upper_types(alloc, out)
}

/// The declarations of types and classes behind those of values.
fn all_types(alloc: Global, out: &mut List<Decl>) -> Result<(), NoMemory>
    ensures { OnOk result (out.new ≡ spec.all_types out.old) }
{
    special_types(alloc, out)?;
    named_types(alloc, out)?;
    lists(alloc, out)
}

/// All declarations.
pub fn decls(alloc: Global) -> Result<List<Decl>, NoMemory>
    ensures { IfOk result (λ ds. ds ≡ spec.decls) }
{
    let mut out = values(alloc)?;
    all_types(alloc, &mut out)?;
    Ok(out)
}
