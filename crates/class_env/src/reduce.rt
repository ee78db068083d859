//! Reducing: in place of a constraint on a type constructor the context of its instance, until only constraints on
//! variables are left (Haskell 2010 Report, section 4.5.3).
ghost use Rattle.std.specs.Prelude.{◌≡◌, None, [], IfOk, length};
ghost use Rattle.face_model.specs.Environments.{insts_of};
ghost use Rattle.class_env.specs.Terms.{term_of};
ghost use Rattle.class_env.specs.Instances.{then, only_of};
ghost use Rattle.class_env.specs.Answers.{IsReduced};
ghost use Rattle.class_env.specs.Laws.{PairsMetAreEnough, OrderChangesNothing, RepeatedAddsNothing};
ghost use Rattle.class_env.specs.Spine.{arguments};
ghost use Rattle.class_env.specs.Reduce.{reduce_at, at_arguments, by_instance, given, so_far, reduced_all, stops};

use crate::choice::{Choice, choose};
use crate::outcome::{Fault, Gathered, Pair, Reduced};
use crate::spine::{Head, argument_of, has_arguments, head_of, place_of};
use face_model::env::Env;
use face_model::inst::Inst;
use face_model::scheme::Constraint;
use mk_base::list::List;
use mk_base::memory::NoMemory;
use mk_base::name::Name;
use mk_base::ty::Ty;
use std::alloc::Global;

/// Puts what a class at a type comes to behind what is there, up to the first constraint without a result.
#[cycle(reduce)]
pub fn reduce_one<E: Env>(
    alloc: Global,
    class: &Name,
    t: &Ty,
    env: &mut E,
    out: &mut Gathered,
) -> Result<Option<Fault>, NoMemory>
    ensures same { E.faces env.new ≡ E.faces env.old }
    ensures outcome { IfOk result (λ f. so_far out.new f ≡ then (so_far out.old None) (reduce_at (insts_of (E.faces env.old)) (term_of t.now) [] class.now)) }
{
    match head_of(t) {
        Head::Variable(n) => {
            if has_arguments(t) {
                return Ok(Some(Fault::NoInstanceVar));
            }
            let class = class.copy(alloc)?;
            let ty = Ty::Var(n);
            out.rest.push(Constraint { class, ty })?;
            Ok(None)
        }
        Head::Constructor(head) => {
            let members = env.insts(alloc, class, head)?;
            let class = class.copy(alloc)?;
            let head = head.copy(alloc)?;
            reduce_by(alloc, members.as_slice(), Pair { class, head }, t, env, out)
        }
    }
}

/// The same by the instances of a pair.
#[cycle(reduce)]
fn reduce_by<E: Env>(
    alloc: Global,
    members: &[Inst],
    pair: Pair,
    t: &Ty,
    env: &mut E,
    out: &mut Gathered,
) -> Result<Option<Fault>, NoMemory>
    ensures same { E.faces env.new ≡ E.faces env.old }
    ensures outcome { IfOk result (λ f. so_far out.new f ≡ then (so_far out.old None) (by_instance (only_of members.now (length (arguments (term_of t.now)))) pair (given (insts_of (E.faces env.old)) (term_of t.now)))) }
{
    out.met.push(pair.copy(alloc)?)?;
    match choose(members, t) {
        Choice::No => Ok(Some(Fault::NoInstance(pair))),
        Choice::Several => Ok(Some(Fault::Several(pair))),
        Choice::One(instance) => reduce_context(alloc, instance.context.as_slice(), t, env, out),
    }
}

/// The same for a context at the arguments of a type.
#[cycle(reduce)]
fn reduce_context<E: Env>(
    alloc: Global,
    context: &[Constraint],
    t: &Ty,
    env: &mut E,
    out: &mut Gathered,
) -> Result<Option<Fault>, NoMemory>
    ensures same { E.faces env.new ≡ E.faces env.old }
    ensures outcome { IfOk result (λ f. so_far out.new f ≡ then (so_far out.old None) (at_arguments context.now (given (insts_of (E.faces env.old)) (term_of t.now)))) }
{
    for k in context {
        if let Some(place) = place_of(&k.ty) {
            if let Ok(argument) = argument_of(t, place) {
                let fault = reduce_one(alloc, &k.class, argument, env, out)?;
                if fault.is_some() {
                    return Ok(fault);
                }
            }
        }
    }
    Ok(None)
}

/// Reducing reads the instances of the pairs that it meets alone.
pub fn pairs_met_are_enough()
    ensures { PairsMetAreEnough }
{}

/// Constraints in another order, or repeated, leave and meet the same.
pub fn order_changes_nothing()
    ensures { OrderChangesNothing }
{}

/// A constraint that is there already adds nothing.
pub fn repeated_adds_nothing()
    ensures { RepeatedAddsNothing }
{}

/// Reduces constraints; no call changes the environment. Want of memory is the only error; it is answered too where the
/// first constraint without a result stands at a place from 2^32 on, which the answer can't tell.
pub fn reduce<E: Env>(
    alloc: Global,
    wanted: &List<Constraint>,
    env: &mut E,
) -> Result<Reduced, NoMemory>
    ensures same { E.faces env.new ≡ E.faces env.old }
    ensures reduced { IfOk result (λ r. IsReduced r (reduced_all (insts_of (E.faces env.old)) wanted.now) (stops (insts_of (E.faces env.old)) wanted.now 0)) }
{
    let wanted = wanted.as_slice();
    let mut out = Gathered {
        rest: List::new(alloc),
        met: List::new(alloc),
    };
    for at in 0..wanted.len() {
        let w = &wanted[at];
        if let Some(fault) = reduce_one(alloc, &w.class, &w.ty, env, &mut out)? {
            return fault.at(at);
        }
    }
    let Gathered { rest, met } = out;
    Ok(Reduced::Rest { rest, met })
}
