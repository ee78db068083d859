//! What follows from given constraints, by superclasses and instances.
ghost use Rattle.std.specs.Prelude.{◌≡◌, ◌↔◌, IsTrue, IfOk, length};
ghost use Rattle.face_model.specs.Environments.{insts_of};
ghost use Rattle.class_env.specs.Terms.{term_of};
ghost use Rattle.class_env.specs.Spine.{arguments};
ghost use Rattle.class_env.specs.Instances.{only_of};
ghost use Rattle.class_env.specs.Entails.{KnownIn, Entails, ByOnly, Holds, HoldsAt, Follows};

use crate::choice::{Choice, choose};
use crate::given::{Held, held_of, is_known};
use crate::spine::{Head, argument_of, head_of, place_of};
use face_model::env::Env;
use face_model::inst::Inst;
use face_model::scheme::Constraint;
use mk_base::list::List;
use mk_base::memory::NoMemory;
use mk_base::name::Name;
use mk_base::ty::Ty;
use std::alloc::Global;

/// Whether a class at a type follows.
#[cycle(entails)]
fn entails_one<E: Env>(
    alloc: Global,
    held: &[Held<'_>],
    class: &Name,
    t: &Ty,
    env: &mut E,
) -> Result<bool, NoMemory>
    ensures same { E.faces env.new ≡ E.faces env.old }
    ensures exact { IfOk result (λ b. IsTrue b ↔ Entails (KnownIn held.now) (insts_of (E.faces env.old)) class.now (term_of t.now)) }
{
    if is_known(held, class, t) {
        return Ok(true);
    }
    match head_of(t) {
        Head::Variable(_) => Ok(false),
        Head::Constructor(head) => {
            let members = env.insts(alloc, class, head)?;
            let follows = entails_by(alloc, held, members.as_slice(), t, env)?;
            Ok(follows)
        }
    }
}

/// The same by the instances of a pair.
#[cycle(entails)]
fn entails_by<E: Env>(
    alloc: Global,
    held: &[Held<'_>],
    members: &[Inst],
    t: &Ty,
    env: &mut E,
) -> Result<bool, NoMemory>
    ensures same { E.faces env.new ≡ E.faces env.old }
    ensures exact { IfOk result (λ b. IsTrue b ↔ ByOnly (KnownIn held.now) (insts_of (E.faces env.old)) (only_of members.now (length (arguments (term_of t.now)))) (term_of t.now)) }
{
    match choose(members, t) {
        Choice::No => Ok(false),
        Choice::Several => Ok(false),
        Choice::One(instance) => {
            entails_context(alloc, held, instance.context.as_slice(), t, env)
        }
    }
}

/// The same for a context at the arguments of a type.
#[cycle(entails)]
fn entails_context<E: Env>(
    alloc: Global,
    held: &[Held<'_>],
    context: &[Constraint],
    t: &Ty,
    env: &mut E,
) -> Result<bool, NoMemory>
    ensures same { E.faces env.new ≡ E.faces env.old }
    ensures exact { IfOk result (λ b. IsTrue b ↔ Holds (KnownIn held.now) (insts_of (E.faces env.old)) context.now (term_of t.now)) }
{
    for k in context {
        if !entails_argument(alloc, held, k, t, env)? {
            return Ok(false);
        }
    }
    Ok(true)
}

/// The same for one constraint of a context, which is on a variable.
#[cycle(entails)]
fn entails_argument<E: Env>(
    alloc: Global,
    held: &[Held<'_>],
    k: &Constraint,
    t: &Ty,
    env: &mut E,
) -> Result<bool, NoMemory>
    ensures same { E.faces env.new ≡ E.faces env.old }
    ensures exact { IfOk result (λ b. IsTrue b ↔ HoldsAt (KnownIn held.now) (insts_of (E.faces env.old)) k.now (term_of t.now)) }
{
    match place_of(&k.ty) {
        None => Ok(true),
        Some(place) => match argument_of(t, place) {
            Err(_) => Ok(true),
            Ok(argument) => {
                let follows = entails_one(alloc, held, &k.class, argument, env)?;
                Ok(follows)
            }
        },
    }
}

/// Whether a constraint follows from given ones by superclasses and instances; no call changes the environment. Want of
/// memory is the only error.
pub fn entails<E: Env>(
    alloc: Global,
    given: &List<Constraint>,
    wanted: &Constraint,
    env: &mut E,
) -> Result<bool, NoMemory>
    ensures same { E.faces env.new ≡ E.faces env.old }
    ensures exact { IfOk result (λ b. IsTrue b ↔ Follows (E.faces env.old) given.now wanted.now) }
{
    let held = held_of(alloc, given.as_slice(), env)?;
    let follows = entails_one(alloc, &held, &wanted.class, &wanted.ty, env)?;
    Ok(follows)
}
