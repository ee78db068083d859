//! The groups of bindings that are inferred together, in dependency order.
#![tactic(auto)]

pub mod binding;
mod graph;
mod names;
mod rows;

ghost use Rattle.std.specs.Prelude.{◌≡◌, ◌<◌, ◌^◌, ℕ, IfOk, length, List as Row};
ghost use Rattle.node_groups.specs.Groups.{IsGroups};
ghost use Rattle.bind_groups.specs.declared.binding.Binding.{Binding as BindingValue};
ghost use Rattle.bind_groups.specs.Depends.{Depends};

use crate::binding::Binding;
use crate::graph::row_groups;
use crate::names::bound_names;
use crate::rows::{bound_rows, number_lists, used_rows};
use mk_base::list::List;
use mk_base::memory::NoMemory;
use std::alloc::Global;

/// The groups of some bindings in dependency order, by their numbers. The bindings stand in the list by their places in
/// the source, and the number of a binding is its place in the list, from 0. A binding depends on another where it uses
/// a name that the other binds without a signature; a name that no binding binds is no dependency. Two bindings are in
/// one group exactly where they are the same or each depends on the other, over others if need be, and the members of a
/// group rise. A group stands behind all groups that its members depend on; of those that may come the one with the
/// least first member comes next. NoMemory where memory runs out.
pub fn groups(alloc: Global, bindings: &List<Binding>) -> Result<List<List<u32>>, NoMemory>
    requires few { length bindings.now < 2 ^ 32 }
    ensures groups { IfOk result (λ v. IsGroups (Depends bindings.now) (length bindings.now) v) }
{
    let names = bound_names(alloc, bindings.as_slice())?;
    let bound = bound_rows(alloc, bindings.as_slice(), &names)?;
    let used = used_rows(alloc, bindings.as_slice(), &names)?;
    let groups = row_groups(alloc, &bound, &used, names.len())?;
    number_lists(alloc, &groups)
}

/// There is one list of groups alone.
pub fn groups_are_one()
    ensures one { (bs : Row BindingValue) (gs hs : Row (Row ℕ)) → IsGroups (Depends bs) (length bs) gs → IsGroups (Depends bs) (length bs) hs → gs ≡ hs }
{}
