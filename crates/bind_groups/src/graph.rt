//! The graph of bindings, from the names that each binds and uses, as numbers below a count.

ghost use Rattle.std.specs.Prelude.{◌≡◌, ◌⊎◌, ◌<◌, ◌↔◌, ℕ, List, [], IfOk, OnOk, get_or, length};
ghost use Rattle.std.specs.List.{All, Contains};
ghost use Rattle.numbered_nodes.specs.Edges.{lists, HasEdge, InRange};
ghost use Rattle.node_groups.specs.Groups.{IsGroups};
ghost use Rattle.bind_groups.specs.Meets.{Meets};

use node_groups::groups_of;
use node_groups::turned::empty_rows;
use std::alloc::{AllocError, Global};

/// Puts a binding into the rows of its names.
fn add_owner(rows: &mut [Vec<usize>], names: &[usize], binding: usize) -> Result<(), AllocError>
    requires range { All (λ x. x < length rows.old) names.now }
    ensures len { length rows.new ≡ length rows.old }
    ensures edges { OnOk result ((x j : ℕ) → HasEdge (lists rows.new) x j ↔ (HasEdge (lists rows.old) x j ⊎ ((j ≡ binding) × Contains names.now x))) }
{
    for name in names {
        rows[*name].push(binding)?;
    }
    Ok(())
}

/// The bindings of each name.
fn owners_of(
    alloc: Global,
    bound: &[Vec<usize>],
    count: usize,
) -> Result<Vec<Vec<usize>>, AllocError>
    requires range { InRange (lists bound.now) count }
    ensures len { IfOk result (λ r. length r.items ≡ count) }
    ensures edges { IfOk result (λ r. (j x : ℕ) → HasEdge (lists r.items) x j ↔ HasEdge (lists bound.now) j x) }
{
    let mut rows = empty_rows(alloc, count)?;
    for binding in 0..bound.len() {
        add_owner(&mut rows, &bound[binding], binding)?;
    }
    Ok(rows)
}

/// The bindings of some names, one after another.
fn targets_of(
    alloc: Global,
    names: &[usize],
    owners: &[Vec<usize>],
) -> Result<Vec<usize>, AllocError>
    requires range { All (λ x. x < length owners.now) names.now }
    ensures { IfOk result (λ row. (j : ℕ) → Contains row.items j ↔ ((x : ℕ) × Contains names.now x × HasEdge (lists owners.now) x j)) }
{
    let mut row = Vec::new(alloc);
    for name in names {
        row.extend_from_slice(owners[*name].as_slice())?;
    }
    Ok(row)
}

/// The graph of bindings, from the names that each uses and the bindings of each name.
fn used_graph(
    alloc: Global,
    used: &[Vec<usize>],
    owners: &[Vec<usize>],
) -> Result<Vec<Vec<usize>>, AllocError>
    requires range { InRange (lists used.now) (length owners.now) }
    ensures len { IfOk result (λ g. length g.items ≡ length used.now) }
    ensures edges { IfOk result (λ g. (i j : ℕ) → HasEdge (lists g.items) i j ↔ ((x : ℕ) × HasEdge (lists used.now) i x × HasEdge (lists owners.now) x j)) }
{
    let mut rows = Vec::new(alloc);
    for binding in 0..used.len() {
        rows.push(targets_of(alloc, &used[binding], owners)?)?;
    }
    Ok(rows)
}

/// The groups of the bindings 0, 1, .., numbered by place. `bound` has the names that each binds and `used` those that
/// each uses, all of them below `count`. AllocError where memory runs out.
pub fn row_groups(
    alloc: Global,
    bound: &[Vec<usize>],
    used: &[Vec<usize>],
    count: usize,
) -> Result<Vec<Vec<usize>>, AllocError>
    requires len { length bound.now ≡ length used.now }
    requires bound { InRange (lists bound.now) count }
    requires used { InRange (lists used.now) count }
    ensures { IfOk result (λ v. IsGroups (Meets (lists used.now) (lists bound.now)) (length used.now) (lists v.items)) }
{
    let owners = owners_of(alloc, bound, count)?;
    let graph = used_graph(alloc, used, &owners)?;
    groups_of(alloc, &graph)
}
