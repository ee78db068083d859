//! Defaults of variables (Haskell 2010 Report, section 4.3.4).
ghost use Rattle.std.specs.Prelude.{◌≡◌, ◌↔◌, None, IsTrue, IfOk};
ghost use Rattle.face_model.specs.Environments.{insts_of};
ghost use Rattle.class_env.specs.Terms.{term_of};
ghost use Rattle.class_env.specs.Supers.{supers_of, Gives};
ghost use Rattle.class_env.specs.Reduce.{reduced};
ghost use Rattle.class_env.specs.Defaults as spec;
ghost use Rattle.class_env.specs.DefaultLaws as laws;

use crate::names::has_name;
use crate::outcome::Gathered;
use crate::reduce::reduce_one;
use crate::spine::place_of;
use crate::supers::above;
use face_model::env::Env;
use face_model::scheme::Constraint;
use mk_base::list::List;
use mk_base::memory::NoMemory;
use mk_base::name::{ModName, Name, Occ, Space, Unit};
use mk_base::text::Text;
use mk_base::ty::Ty;
use std::alloc::Global;

/// A type or class of the module `Prim`.
fn prim_type(alloc: Global, text: &[u8]) -> Result<Name, NoMemory>
    ensures { IfOk result (λ n. n ≡ spec.prim_type text.now) }
{
    let unit = Text::from_slice(alloc, b"prim")?;
    let module = Text::from_slice(alloc, b"Prim")?;
    let occ = Text::from_slice(alloc, text)?;
    Ok(Name {
        unit: Unit { text: unit },
        module: ModName { text: module },
        occ: Occ {
            space: Space::Ty,
            text: occ,
        },
    })
}

fn integer(alloc: Global) -> Result<Ty, NoMemory>
    ensures { IfOk result (λ t. t ≡ spec.integer) }
{
    Ok(Ty::Con(prim_type(alloc, b"Integer")?))
}

fn double(alloc: Global) -> Result<Ty, NoMemory>
    ensures { IfOk result (λ t. t ≡ spec.double) }
{
    Ok(Ty::Con(prim_type(alloc, b"Double")?))
}

/// Whether a name is one of the module `Prim`.
fn is_prim(name: &Name) -> bool
    ensures { IsTrue result ↔ spec.IsPrim name.now }
{
    name.unit.text.as_slice() == b"prim".as_slice()
        && name.module.text.as_slice() == b"Prim".as_slice()
}

/// Whether a variable stands in a type.
fn occurs(var: u64, t: &Ty) -> bool
    ensures { result ≡ spec.occurs var (term_of t.now) }
{
    match t {
        Ty::Var(n) => *n == var,
        Ty::Con(_) => false,
        Ty::App(f, x) => occurs(var, f.get()) || occurs(var, x.get()),
    }
}

/// Whether a constraint is on a variable itself.
fn is_on(var: u64, w: &Constraint) -> bool
    ensures { IsTrue result ↔ spec.IsOn var w.now }
{
    place_of(&w.ty) == Some(var)
}

/// Whether a constraint lets a variable be defaulted: it is on the variable itself and its class is one of `Prim`, or
/// the variable doesn't stand in it.
fn permits(var: u64, w: &Constraint) -> bool
    ensures { IsTrue result ↔ spec.Permits var w.now }
{
    if is_on(var, w) {
        is_prim(&w.class)
    } else {
        !occurs(var, &w.ty)
    }
}

/// Whether all constraints do.
fn all_permit(var: u64, wanted: &[Constraint]) -> bool
    ensures { IsTrue result ↔ spec.PermitsAll var wanted.now }
{
    for w in wanted {
        if !permits(var, w) {
            return false;
        }
    }
    true
}

/// Whether a constraint is on a variable and its class is a numeric one, or has it among its superclasses.
fn is_numeric<E: Env>(
    alloc: Global,
    var: u64,
    w: &Constraint,
    number: &Name,
    env: &mut E,
) -> Result<bool, NoMemory>
    ensures same { E.faces env.new ≡ E.faces env.old }
    ensures exact { IfOk result (λ b. IsTrue b ↔ (spec.IsOn var w.now × Gives (supers_of (E.faces env.old)) w.now.class number.now)) }
{
    if !is_on(var, w) {
        return Ok(false);
    }
    let names = above(alloc, &w.class, env)?;
    Ok(has_name(&names, number))
}

/// Whether some class of a variable is numeric.
fn has_numeric<E: Env>(
    alloc: Global,
    var: u64,
    wanted: &[Constraint],
    env: &mut E,
) -> Result<bool, NoMemory>
    ensures same { E.faces env.new ≡ E.faces env.old }
    ensures exact { IfOk result (λ b. IsTrue b ↔ spec.HasNumeric (supers_of (E.faces env.old)) var wanted.now) }
{
    let number = prim_type(alloc, b"Num")?;
    for w in wanted {
        if is_numeric(alloc, var, w, &number, env)? {
            return Ok(true);
        }
    }
    Ok(false)
}

/// Whether a class at a type has a result.
fn has_result<E: Env>(alloc: Global, class: &Name, t: &Ty, env: &mut E) -> Result<bool, NoMemory>
    ensures same { E.faces env.new ≡ E.faces env.old }
    ensures exact { IfOk result (λ b. IsTrue b ↔ ((reduced (insts_of (E.faces env.old)) (spec.at_type class.now t.now)).fault ≡ None)) }
{
    let mut out = Gathered {
        rest: List::new(alloc),
        met: List::new(alloc),
    };
    let fault = reduce_one(alloc, class, t, env, &mut out)?;
    Ok(fault.is_none())
}

/// Whether the class of a constraint has a result at a type, where the constraint is on a variable.
fn fits_at<E: Env>(
    alloc: Global,
    var: u64,
    w: &Constraint,
    t: &Ty,
    env: &mut E,
) -> Result<bool, NoMemory>
    ensures same { E.faces env.new ≡ E.faces env.old }
    ensures exact { IfOk result (λ b. IsTrue b ↔ spec.FitsAt (insts_of (E.faces env.old)) var t.now w.now) }
{
    if !is_on(var, w) {
        return Ok(true);
    }
    has_result(alloc, &w.class, t, env)
}

/// Whether all classes of a variable have a result at a type.
fn fits<E: Env>(
    alloc: Global,
    var: u64,
    wanted: &[Constraint],
    t: &Ty,
    env: &mut E,
) -> Result<bool, NoMemory>
    ensures same { E.faces env.new ≡ E.faces env.old }
    ensures exact { IfOk result (λ b. IsTrue b ↔ spec.Fits (insts_of (E.faces env.old)) var wanted.now t.now) }
{
    for w in wanted {
        if !fits_at(alloc, var, w, t, env)? {
            return Ok(false);
        }
    }
    Ok(true)
}

/// Whether a variable is defaultable.
fn is_defaultable<E: Env>(
    alloc: Global,
    var: u64,
    wanted: &[Constraint],
    env: &mut E,
) -> Result<bool, NoMemory>
    ensures same { E.faces env.new ≡ E.faces env.old }
    ensures exact { IfOk result (λ b. IsTrue b ↔ spec.IsDefaultable (supers_of (E.faces env.old)) var wanted.now) }
{
    if !all_permit(var, wanted) {
        return Ok(false);
    }
    has_numeric(alloc, var, wanted, env)
}

/// The default type of a variable among constraints.
fn default_in<E: Env>(
    alloc: Global,
    var: u64,
    wanted: &[Constraint],
    env: &mut E,
) -> Result<Option<Ty>, NoMemory>
    ensures same { E.faces env.new ≡ E.faces env.old }
    ensures exact { IfOk result (spec.IsDefault (supers_of (E.faces env.old)) (insts_of (E.faces env.old)) var wanted.now) }
{
    if !is_defaultable(alloc, var, wanted, env)? {
        return Ok(None);
    }
    let first = integer(alloc)?;
    if fits(alloc, var, wanted, &first, env)? {
        return Ok(Some(first));
    }
    let second = double(alloc)?;
    if fits(alloc, var, wanted, &second, env)? {
        return Ok(Some(second));
    }
    Ok(None)
}

/// The default type of a variable, `Integer` or else `Double`: the first at which all classes of the variable have an
/// instance. None exactly where neither has, or the variable isn't defaultable: it stands in a constraint that isn't on
/// the variable itself, or one of its classes isn't of `Prim`, or none is `Num` or has it among its superclasses. No
/// call changes the environment. Want of memory is the only error.
pub fn default_of<E: Env>(
    alloc: Global,
    var: u64,
    wanted: &List<Constraint>,
    env: &mut E,
) -> Result<Option<Ty>, NoMemory>
    ensures same { E.faces env.new ≡ E.faces env.old }
    ensures exact { IfOk result (spec.IsDefault (supers_of (E.faces env.old)) (insts_of (E.faces env.old)) var wanted.now) }
{
    default_in(alloc, var, wanted.as_slice(), env)
}

/// A variable has one default, or none.
pub fn one_default()
    ensures { laws.OneDefault }
{}

/// Nothing is read but the superclasses of what a variable's classes give, and their instances at `Integer` and, where that
/// one doesn't fit, at `Double`.
pub fn defaults_read_no_more()
    ensures { laws.DefaultsReadNoMore }
{}
