//! The declarations of the classes (Haskell 2010 Report, section 6.3), each put behind others.
ghost use Rattle.std.specs.Prelude.{◌≡◌, ◌++◌, ◌∷◌, [], IfOk, OnOk};
ghost use Rattle.prim_table.specs.Classes as classes;

use crate::methods::{
    bounded_methods, enum_methods, eq_methods, floating_methods, fractional_methods,
    functor_methods, integral_methods, monad_methods, num_methods, ord_methods, read_methods,
    real_frac_methods, real_methods, show_methods,
};
use crate::spelled::own;
use crate::types::type_decl;
use face_model::decl::{Body, Decl, Method};
use mk_base::kind::Kind;
use mk_base::list::List;
use mk_base::memory::NoMemory;
use mk_base::name::{Name, Space};
use sqlite_items::Boxed;
use std::alloc::Global;

/// A class of types behind others.
fn class(
    alloc: Global,
    out: &mut List<Decl>,
    occ: &[u8],
    supers: List<Name>,
    methods: List<Method>,
) -> Result<(), NoMemory>
    ensures { OnOk result (out.new ≡ out.old ++ classes.class_over classes.star occ.now supers methods ∷ []) }
{
    let body = Body::Class {
        kind: Kind::Star,
        supers,
        methods,
    };
    let decl = type_decl(alloc, occ, body)?;
    out.push(decl)
}

/// A class of types that are applied to one type.
fn class_of_constructors(
    alloc: Global,
    out: &mut List<Decl>,
    occ: &[u8],
    methods: List<Method>,
) -> Result<(), NoMemory>
    ensures { OnOk result (out.new ≡ out.old ++ classes.class_of_constructors occ.now methods ∷ []) }
{
    let from = Boxed::new(alloc, Kind::Star)?;
    let to = Boxed::new(alloc, Kind::Star)?;
    let body = Body::Class {
        kind: Kind::Arrow(from, to),
        supers: List::new(alloc),
        methods,
    };
    let decl = type_decl(alloc, occ, body)?;
    out.push(decl)
}

fn one_super(alloc: Global, class: &[u8]) -> Result<List<Name>, NoMemory>
    ensures { IfOk result (λ ns. ns ≡ classes.one_super class.now) }
{
    let mut supers = List::new(alloc);
    supers.push(own(alloc, Space::Ty, class)?)?;
    Ok(supers)
}

fn two_supers(alloc: Global, class: &[u8], other: &[u8]) -> Result<List<Name>, NoMemory>
    ensures { IfOk result (λ ns. ns ≡ classes.two_supers class.now other.now) }
{
    let mut supers = one_super(alloc, class)?;
    supers.push(own(alloc, Space::Ty, other)?)?;
    Ok(supers)
}

/// A class of types below one class.
fn class_below(
    alloc: Global,
    out: &mut List<Decl>,
    occ: &[u8],
    above: &[u8],
    methods: List<Method>,
) -> Result<(), NoMemory>
    ensures { OnOk result (out.new ≡ out.old ++ classes.class occ.now (classes.one_super above.now) methods ∷ []) }
{
    let supers = one_super(alloc, above)?;
    class(alloc, out, occ, supers, methods)
}

/// A class of types below two classes.
fn class_below_two(
    alloc: Global,
    out: &mut List<Decl>,
    occ: &[u8],
    above: &[u8],
    other: &[u8],
    methods: List<Method>,
) -> Result<(), NoMemory>
    ensures { OnOk result (out.new ≡ out.old ++ classes.class occ.now (classes.two_supers above.now other.now) methods ∷ []) }
{
    let supers = two_supers(alloc, above, other)?;
    class(alloc, out, occ, supers, methods)
}

/// The class `Bounded`.
pub fn bounded_class(alloc: Global, out: &mut List<Decl>) -> Result<(), NoMemory>
    ensures { OnOk result (out.new ≡ out.old ++ classes.bounded_class ∷ []) }
{
    let methods = bounded_methods(alloc)?;
    class(alloc, out, b"Bounded", List::new(alloc), methods)
}

/// The class `Enum`.
pub fn enum_class(alloc: Global, out: &mut List<Decl>) -> Result<(), NoMemory>
    ensures { OnOk result (out.new ≡ out.old ++ classes.enum_class ∷ []) }
{
    let methods = enum_methods(alloc)?;
    class(alloc, out, b"Enum", List::new(alloc), methods)
}

/// The class `Eq`.
pub fn eq_class(alloc: Global, out: &mut List<Decl>) -> Result<(), NoMemory>
    ensures { OnOk result (out.new ≡ out.old ++ classes.eq_class ∷ []) }
{
    let methods = eq_methods(alloc)?;
    class(alloc, out, b"Eq", List::new(alloc), methods)
}

/// The class `Floating`.
pub fn floating_class(alloc: Global, out: &mut List<Decl>) -> Result<(), NoMemory>
    ensures { OnOk result (out.new ≡ out.old ++ classes.floating_class ∷ []) }
{
    let methods = floating_methods(alloc)?;
    class_below(alloc, out, b"Floating", b"Fractional", methods)
}

/// The class `Fractional`.
pub fn fractional_class(alloc: Global, out: &mut List<Decl>) -> Result<(), NoMemory>
    ensures { OnOk result (out.new ≡ out.old ++ classes.fractional_class ∷ []) }
{
    let methods = fractional_methods(alloc)?;
    class_below(alloc, out, b"Fractional", b"Num", methods)
}

/// The class `Functor`.
pub fn functor_class(alloc: Global, out: &mut List<Decl>) -> Result<(), NoMemory>
    ensures { OnOk result (out.new ≡ out.old ++ classes.functor_class ∷ []) }
{
    let methods = functor_methods(alloc)?;
    class_of_constructors(alloc, out, b"Functor", methods)
}

/// The class `Integral`.
pub fn integral_class(alloc: Global, out: &mut List<Decl>) -> Result<(), NoMemory>
    ensures { OnOk result (out.new ≡ out.old ++ classes.integral_class ∷ []) }
{
    let methods = integral_methods(alloc)?;
    class_below_two(alloc, out, b"Integral", b"Real", b"Enum", methods)
}

/// The class `Monad`.
pub fn monad_class(alloc: Global, out: &mut List<Decl>) -> Result<(), NoMemory>
    ensures { OnOk result (out.new ≡ out.old ++ classes.monad_class ∷ []) }
{
    let methods = monad_methods(alloc)?;
    class_of_constructors(alloc, out, b"Monad", methods)
}

/// The class `Num`.
pub fn num_class(alloc: Global, out: &mut List<Decl>) -> Result<(), NoMemory>
    ensures { OnOk result (out.new ≡ out.old ++ classes.num_class ∷ []) }
{
    let methods = num_methods(alloc)?;
    class(alloc, out, b"Num", List::new(alloc), methods)
}

/// The class `Ord`.
pub fn ord_class(alloc: Global, out: &mut List<Decl>) -> Result<(), NoMemory>
    ensures { OnOk result (out.new ≡ out.old ++ classes.ord_class ∷ []) }
{
    let methods = ord_methods(alloc)?;
    class_below(alloc, out, b"Ord", b"Eq", methods)
}

/// The class `Read`.
pub fn read_class(alloc: Global, out: &mut List<Decl>) -> Result<(), NoMemory>
    ensures { OnOk result (out.new ≡ out.old ++ classes.read_class ∷ []) }
{
    let methods = read_methods(alloc)?;
    class(alloc, out, b"Read", List::new(alloc), methods)
}

/// The class `Real`.
pub fn real_class(alloc: Global, out: &mut List<Decl>) -> Result<(), NoMemory>
    ensures { OnOk result (out.new ≡ out.old ++ classes.real_class ∷ []) }
{
    let methods = real_methods(alloc)?;
    class_below_two(alloc, out, b"Real", b"Num", b"Ord", methods)
}

/// The class `RealFrac`.
pub fn real_frac_class(alloc: Global, out: &mut List<Decl>) -> Result<(), NoMemory>
    ensures { OnOk result (out.new ≡ out.old ++ classes.real_frac_class ∷ []) }
{
    let methods = real_frac_methods(alloc)?;
    class_below_two(alloc, out, b"RealFrac", b"Real", b"Fractional", methods)
}

/// The class `Show`.
pub fn show_class(alloc: Global, out: &mut List<Decl>) -> Result<(), NoMemory>
    ensures { OnOk result (out.new ≡ out.old ++ classes.show_class ∷ []) }
{
    let methods = show_methods(alloc)?;
    class(alloc, out, b"Show", List::new(alloc), methods)
}
