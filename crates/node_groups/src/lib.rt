//! The groups of numbered nodes: classes of mutual reach in dependency order, with ties by the least member, in near
//! linear time and with a few words of memory for each node and edge.
#![tactic(auto)]

mod collect;
mod components;
pub mod loops;
mod members;
mod order;
mod queue;
mod ready;
mod search;
mod steps;
pub mod turned;

ghost use Rattle.std.specs.Prelude.{◌≡◌, ◌<◌, ◌↔◌, ℕ, List, IfOk, length};
ghost use Rattle.numbered_nodes.specs.Edges.{lists, HasEdge, InRange};
ghost use Rattle.node_groups.specs.Groups.{IsGroups};

use crate::collect::collect;
use crate::loops::loops_of;
use crate::members::members;
use crate::order::order_of;
use crate::steps::step_graph;
use std::alloc::{AllocError, Global};

/// The groups of the nodes of a graph, which has the targets of each node 0, 1, .. in a list, all of them nodes. Two
/// nodes are in one group exactly where they are the same or each reaches the other, and the members of a group rise.
/// A group stands behind all groups that its members lead to; of those all of whose targets are listed the one with the
/// least first member comes next. AllocError where memory runs out.
pub fn groups_of(alloc: Global, graph: &[Vec<usize>]) -> Result<Vec<Vec<usize>>, AllocError>
    requires range { InRange (lists graph.now) (length graph.now) }
    ensures { IfOk result (λ v. IsGroups (HasEdge (lists graph.now)) (length graph.now) (lists v.items)) }
{
    let loops = loops_of(alloc, graph)?;
    let members = members(alloc, &loops)?;
    let steps = step_graph(alloc, graph, &loops)?;
    let order = order_of(alloc, &steps)?;
    collect(alloc, &members, &order)
}

/// There is one list of groups alone.
pub fn groups_are_one()
    ensures one { (g : List (List ℕ)) (n : ℕ) (gs hs : List (List ℕ)) → IsGroups (HasEdge g) n gs → IsGroups (HasEdge g) n hs → gs ≡ hs }
{}
