//! The nodes that are ready.

ghost use Rattle.std.specs.Prelude.{◌≡◌, ◌⊎◌, ◌≤◌, ◌↔◌, ℕ, IfSome, IfNone, OnOk};
ghost use Rattle.std.specs.List.{Contains};

use std::alloc::AllocError;
use std::collections::BTreeSet;

/// Puts a node into the set.
pub fn put_ready(ready: &mut BTreeSet<usize>, node: usize) -> Result<(), AllocError>
    ensures { OnOk result ((a : ℕ) → Contains ready.new.keys a ↔ (Contains ready.old.keys a ⊎ (a ≡ node))) }
{
    ready.insert(node)?;
    Ok(())
}

/// Takes the least node out of the set.
pub fn take_least(ready: &mut BTreeSet<usize>) -> Option<usize>
    ensures some { IfSome result (Contains ready.old.keys) }
    ensures least { IfSome result (λ y. (a : ℕ) → Contains ready.old.keys a → y ≤ a) }
    ensures rest { IfSome result (λ y. (a : ℕ) → Contains ready.new.keys a ↔ (Contains ready.old.keys a × (a ≡ y → ⊥))) }
    ensures none { IfNone result ((a : ℕ) → Contains ready.old.keys a → ⊥) }
{
    ready.pop_first()
}
