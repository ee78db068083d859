//! Given constraints with all that they give over superclasses.
ghost use Rattle.std.specs.Prelude.{◌≡◌, ◌↔◌, IsTrue, IfOk};
ghost use Rattle.mk_base.specs.declared.name.Name.{Name};
ghost use Rattle.class_env.specs.Supers.{supers_of};
ghost use Rattle.class_env.specs.Terms.{Term, term_of};
ghost use Rattle.class_env.specs.Entails.{HeldAt, KnownIn, Known};

use crate::names::has_name;
use crate::supers::above;
use face_model::env::Env;
use face_model::scheme::Constraint;
use indexmap::IndexSet;
use mk_base::memory::NoMemory;
use mk_base::name::Name;
use mk_base::ty::{Ty, same_ty};
use std::alloc::Global;

/// A given constraint: its type, and its class with all superclasses that are reached from it.
#[derive(Drop)]
pub struct Held<'a> {
    pub ty: &'a Ty,
    pub above: IndexSet<Name>,
}

/// Whether a given constraint gives a class at a type.
fn gives(held: &Held<'_>, class: &Name, t: &Ty) -> bool
    ensures { IsTrue result ↔ HeldAt held.now class.now (term_of t.now) }
{
    has_name(&held.above, class) && same_ty(held.ty, t)
}

/// Whether one of the given constraints gives a class at a type.
pub fn is_known(held: &[Held<'_>], class: &Name, t: &Ty) -> bool
    ensures { IsTrue result ↔ KnownIn held.now class.now (term_of t.now) }
{
    for one in held {
        if gives(one, class, t) {
            return true;
        }
    }
    false
}

/// Given constraints with all that they give, each class's superclasses found once.
pub fn held_of<'a, E: Env>(
    alloc: Global,
    given: &'a [Constraint],
    env: &mut E,
) -> Result<Vec<Held<'a>>, NoMemory>
    ensures same { E.faces env.new ≡ E.faces env.old }
    ensures known { IfOk result (λ held. (c : Name) (t : Term) → KnownIn held.items c t ↔ Known (supers_of (E.faces env.old)) given.now c t) }
{
    let mut held = Vec::new(alloc);
    for one in given {
        let names = above(alloc, &one.class, env)?;
        held.push(Held {
            ty: &one.ty,
            above: names,
        })?;
    }
    Ok(held)
}
