//! The superclasses of classes (Haskell 2010 Report, section 4.3.1).
ghost use Rattle.std.specs.Prelude.{◌≡◌, ◌<◌, ◌↔◌, IfOk, OnOk, length};
ghost use Rattle.std.specs.List.{Contains};
ghost use Rattle.mk_base.specs.declared.name.Name.{Name};
ghost use Rattle.class_env.specs.Supers.{supers_of, supers_named, Gives, GrownAt};

use crate::names::put_all;
use face_model::decl::{Body, Decl};
use face_model::env::Env;
use indexmap::IndexSet;
use mk_base::list::List;
use mk_base::memory::NoMemory;
use mk_base::name::Name;
use std::alloc::Global;

/// The superclasses that a class's declaration names; none where the environment has no declaration of that name, or
/// it isn't one of a class.
pub fn direct_supers<E: Env>(
    alloc: Global,
    class: &Name,
    env: &mut E,
) -> Result<List<Name>, NoMemory>
    ensures same { E.faces env.new ≡ E.faces env.old }
    ensures names { IfOk result (λ names. names ≡ supers_of (E.faces env.old) class.now) }
{
    let found = env.lookup(alloc, class)?;
    Ok(match found {
        None => List::new(alloc),
        Some(decl) => supers_in(alloc, decl),
    })
}

/// The superclasses in a declaration.
fn supers_in(alloc: Global, decl: Decl) -> List<Name>
    ensures { result ≡ supers_named decl }
{
    let Decl { body, .. } = decl;
    match body {
        Body::Class { supers, .. } => supers,
        _ => List::new(alloc),
    }
}

/// Puts the superclasses of the class at a place behind the names that are there.
fn put_supers<E: Env>(
    alloc: Global,
    found: &mut IndexSet<Name>,
    at: usize,
    env: &mut E,
) -> Result<(), NoMemory>
    requires { at < length found.old.keys }
    ensures same { E.faces env.new ≡ E.faces env.old }
    ensures grown { OnOk result (GrownAt (supers_of (E.faces env.old)) found.old.keys at found.new.keys) }
{
    if let Some(class) = found.get_index(at) {
        let supers = direct_supers(alloc, class, env)?;
        put_all(alloc, found, supers.as_slice())?;
    }
    Ok(())
}

/// A class and all superclasses that are reached from it; these may go in a circle.
pub fn above<E: Env>(alloc: Global, class: &Name, env: &mut E) -> Result<IndexSet<Name>, NoMemory>
    ensures same { E.faces env.new ≡ E.faces env.old }
    ensures exact { IfOk result (λ names. (c : Name) → Contains names.keys c ↔ Gives (supers_of (E.faces env.old)) class.now c) }
{
    let mut found = IndexSet::new(alloc);
    found.insert(class.copy(alloc)?)?;
    let mut done = 0;
    while done < found.len() {
        put_supers(alloc, &mut found, done, env)?;
        done += 1;
    }
    Ok(found)
}
