//! The names of bindings as numbers below a count, without those that nobody binds, and the groups as numbers.
ghost use Rattle.std.specs.Prelude.{◌≡◌, ◌<◌, ◌^◌, IfOk, length, map};
ghost use Rattle.std.specs.List.{All};
ghost use Rattle.numbered_nodes.specs.Edges.{lists, InRange};
ghost use Rattle.bind_groups.specs.Depends.{unsigned_names, used_names};
ghost use Rattle.bind_groups.specs.Numbers.{number, numbers_in};

use crate::binding::{Binding, names_without_signature};
use indexmap::IndexSet;
use mk_base::list::List;
use mk_base::memory::NoMemory;
use std::alloc::Global;

/// The place of a name in a set.
fn place_of(names: &IndexSet<u32>, name: u32) -> Option<usize>
    ensures { result ≡ number names.now.keys name }
{
    names.get_index_of(&name)
}

/// The places in a set of those of some names that stand in it.
fn places_in(alloc: Global, names: &IndexSet<u32>, some: &[u32]) -> Result<Vec<usize>, NoMemory>
    ensures { IfOk result (λ v. v.items ≡ numbers_in names.now.keys some.now) }
{
    let mut places = Vec::new(alloc);
    for name in some {
        if let Some(place) = place_of(names, *name) {
            places.push(place)?;
        }
    }
    Ok(places)
}

/// The places of the names that each binding binds without a signature.
pub fn bound_rows(
    alloc: Global,
    bindings: &[Binding],
    names: &IndexSet<u32>,
) -> Result<Vec<Vec<usize>>, NoMemory>
    ensures { IfOk result (λ v. lists v.items ≡ map (λ b. numbers_in names.now.keys (unsigned_names b)) bindings.now) }
{
    let mut rows = Vec::new(alloc);
    for binding in bindings {
        rows.push(places_in(alloc, names, names_without_signature(binding))?)?;
    }
    Ok(rows)
}

/// The places of the names that each binding uses.
pub fn used_rows(
    alloc: Global,
    bindings: &[Binding],
    names: &IndexSet<u32>,
) -> Result<Vec<Vec<usize>>, NoMemory>
    ensures { IfOk result (λ v. lists v.items ≡ map (λ b. numbers_in names.now.keys (used_names b)) bindings.now) }
{
    let mut rows = Vec::new(alloc);
    for binding in bindings {
        rows.push(places_in(alloc, names, binding.uses.as_slice())?)?;
    }
    Ok(rows)
}

/// The same numbers as a list.
fn numbers(alloc: Global, places: &[usize]) -> Result<List<u32>, NoMemory>
    requires { All (λ k. k < 2 ^ 32) places.now }
    ensures { IfOk result (λ v. v ≡ places.now) }
{
    let mut numbers = List::new(alloc);
    for place in places {
        numbers.push(*place as u32)?;
    }
    Ok(numbers)
}

/// The same lists of numbers as a list.
pub fn number_lists(alloc: Global, rows: &[Vec<usize>]) -> Result<List<List<u32>>, NoMemory>
    requires { InRange (lists rows.now) (2 ^ 32) }
    ensures { IfOk result (λ v. v ≡ lists rows.now) }
{
    let mut all = List::new(alloc);
    for row in rows {
        all.push(numbers(alloc, row)?)?;
    }
    Ok(all)
}
