//! The loop of each node, whose number is the least node in it.

ghost use Rattle.std.specs.Prelude.{◌≡◌, ◌≤◌, ◌<◌, ◌↔◌, ℕ, List, IfOk, get_or, length};
ghost use Rattle.std.specs.List.{All};
ghost use Rattle.numbered_nodes.specs.Reach.{InOneLoop};
ghost use Rattle.numbered_nodes.specs.Edges.{lists, HasEdge, InRange};
ghost use Rattle.node_groups.specs.Least.{IsLeast};

use crate::components::components;
use std::alloc::{AllocError, Global};

/// The least node of each name, from the last node down.
fn least_nodes(alloc: Global, names: &[usize]) -> Result<Vec<usize>, AllocError>
    requires { All (λ m. m < length names.now) names.now }
    ensures len { IfOk result (λ v. length v.items ≡ length names.now) }
    ensures least { IfOk result (λ v. (a : ℕ) → a < length names.now → IsLeast names.now v.items a) }
{
    let count = names.len();
    let mut least = Vec::new(alloc);
    least.resize(count, count)?;
    for turn in 0..count {
        let node = count - 1 - turn;
        least[names[node]] = node;
    }
    Ok(least)
}

/// The least node for the name of each node.
fn least_of(alloc: Global, names: &[usize], least: &[usize]) -> Result<Vec<usize>, AllocError>
    requires { All (λ m. m < length least.now) names.now }
    ensures len { IfOk result (λ v. length v.items ≡ length names.now) }
    ensures at { IfOk result (λ v. (a : ℕ) → a < length names.now → get_or v.items a 0 ≡ get_or least.now (get_or names.now a 0) 0) }
{
    let mut loops = Vec::new(alloc);
    for name in names {
        loops.push(least[*name])?;
    }
    Ok(loops)
}

/// The loop of each node of a graph, which has the targets of each node 0, 1, .. in a list, all of them nodes. The
/// number of a loop is the least node in it, so two nodes have equal numbers exactly where they are the same or each
/// reaches the other. AllocError where memory runs out.
pub fn loops_of(alloc: Global, graph: &[Vec<usize>]) -> Result<Vec<usize>, AllocError>
    requires range { InRange (lists graph.now) (length graph.now) }
    ensures len { IfOk result (λ v. length v.items ≡ length graph.now) }
    ensures loops { IfOk result (λ v. (a b : ℕ) → a < length graph.now → b < length graph.now → (get_or v.items a 0 ≡ get_or v.items b 0) ↔ InOneLoop (HasEdge (lists graph.now)) a b) }
    ensures least { IfOk result (λ v. (a : ℕ) → a < length graph.now → (get_or v.items a 0 ≤ a) × InOneLoop (HasEdge (lists graph.now)) a (get_or v.items a 0)) }
{
    let names = components(alloc, graph)?;
    let least = least_nodes(alloc, &names)?;
    least_of(alloc, &names, &least)
}
