//! The names that are bound without a signature.
ghost use Rattle.std.specs.Prelude.{◌⊎◌, ℕ, [], IfOk, OnOk, get_or, map};
ghost use Rattle.std.specs.List.{Contains};
ghost use Rattle.bind_groups.specs.Depends.{unsigned_names};
ghost use Rattle.bind_groups.specs.Numbers.{HasName};

use crate::binding::{Binding, names_without_signature};
use indexmap::IndexSet;
use mk_base::memory::NoMemory;
use std::alloc::Global;

/// Puts more names into a set.
fn add_names(names: &mut IndexSet<u32>, more: &[u32]) -> Result<(), NoMemory>
    ensures { OnOk result ((x : ℕ) → (HasName names.old.keys x ⊎ Contains more.now x) → HasName names.new.keys x) }
{
    for name in more {
        names.insert(*name)?;
    }
    Ok(())
}

/// All names that some binding binds without a signature.
pub fn bound_names(alloc: Global, bindings: &[Binding]) -> Result<IndexSet<u32>, NoMemory>
    ensures { IfOk result (λ s. (j x : ℕ) → Contains (get_or (map unsigned_names bindings.now) j []) x → HasName s.keys x) }
{
    let mut names = IndexSet::new(alloc);
    for binding in bindings {
        add_names(&mut names, names_without_signature(binding))?;
    }
    Ok(names)
}
