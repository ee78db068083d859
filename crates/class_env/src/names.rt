//! Names without repetition, in the order in which they come.
ghost use Rattle.std.specs.Prelude.{◌↔◌, IsTrue, OnOk};
ghost use Rattle.std.specs.List.{Contains};
ghost use Rattle.class_env.specs.Supers.{Grown};

use indexmap::IndexSet;
use mk_base::memory::NoMemory;
use mk_base::name::Name;
use std::alloc::Global;

/// Puts copies of more names behind those that are there.
pub fn put_all(alloc: Global, names: &mut IndexSet<Name>, more: &[Name]) -> Result<(), NoMemory>
    ensures { OnOk result (Grown names.old.keys more.now names.new.keys) }
{
    for name in more {
        names.insert(name.copy(alloc)?)?;
    }
    Ok(())
}

/// Whether a name is there.
pub fn has_name(names: &IndexSet<Name>, name: &Name) -> bool
    ensures { IsTrue result ↔ Contains names.now.keys name.now }
{
    names.contains(name)
}
