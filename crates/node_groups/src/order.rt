//! The order of the nodes of a graph without a cycle: targets first, and the least where several may come.

ghost use Rattle.std.specs.Prelude.{◌≡◌, ◌<◌, ◌↔◌, ℕ, [], false, IfOk, get_or, length};
ghost use Rattle.std.specs.List.{All, Contains};
ghost use Rattle.numbered_nodes.specs.Reach.{Reach};
ghost use Rattle.numbered_nodes.specs.Edges.{lists, HasEdge, InRange};
ghost use Rattle.node_groups.specs.Order.{IsOrder};
ghost use Rattle.node_groups.specs.Queue.{Is, IsQueue, AreEnds};

use crate::queue::{list_node, put_nodes};
use crate::ready::take_least;
use crate::turned::empty_rows;
use std::alloc::{AllocError, Global};
use std::collections::BTreeSet;

/// The numbers below a count.
fn numbers_below(alloc: Global, count: usize) -> Result<Vec<usize>, AllocError>
    ensures nodes { IfOk result (λ v. All (λ x. x < count) v.items) }
    ensures all { IfOk result (λ v. (x : ℕ) → x < count → Contains v.items x) }
{
    let mut numbers = Vec::new(alloc);
    for number in 0..count {
        numbers.push(number)?;
    }
    Ok(numbers)
}

/// Nobody is listed.
fn none_listed(alloc: Global, count: usize) -> Result<Vec<bool>, AllocError>
    ensures len { IfOk result (λ v. length v.items ≡ count) }
    ensures none { IfOk result (λ v. (k : ℕ) → Is v.items k false) }
{
    let mut listed = Vec::new(alloc);
    listed.resize(count, false)?;
    Ok(listed)
}

/// How many targets each node has.
fn target_counts(alloc: Global, graph: &[Vec<usize>]) -> Result<Vec<usize>, AllocError>
    ensures len { IfOk result (λ v. length v.items ≡ length graph.now) }
    ensures counts { IfOk result (λ v. (x : ℕ) → get_or v.items x 0 ≡ length (get_or (lists graph.now) x [])) }
{
    let mut counts = Vec::new(alloc);
    for targets in graph {
        counts.push(targets.len())?;
    }
    Ok(counts)
}

/// Lists one node after another, the least that is ready, until none is.
fn list_all(
    alloc: Global,
    graph: &[Vec<usize>],
    listed: &mut [bool],
    ends: &mut [usize],
    waiting: &mut [Vec<usize>],
    ready: &mut BTreeSet<usize>,
) -> Result<Vec<usize>, AllocError>
    requires range { InRange (lists graph.now) (length graph.now) }
    requires free { (a : ℕ) → Reach (HasEdge (lists graph.now)) a a → ⊥ }
    requires listed { (length listed.old ≡ length graph.now) × ((k : ℕ) → Is listed.old k false) }
    requires ends { (length ends.old ≡ length graph.now) × AreEnds (lists graph.now) ends.old }
    requires waiting { length waiting.old ≡ length graph.now }
    requires queue { IsQueue (lists graph.now) (length graph.now) listed.old ends.old (lists waiting.old) ready.old.keys [] }
    ensures order { IfOk result (λ os. IsOrder (HasEdge (lists graph.now)) (length graph.now) os.items) }
{
    let mut order = Vec::new(alloc);
    while let Some(node) = take_least(ready) {
        order.push(node)?;
        list_node(alloc, graph, listed, ends, waiting, ready, node)?;
    }
    Ok(order)
}

/// The order of the nodes 0, 1, .. of a graph without a cycle, given by the targets of each: of the nodes that aren't
/// listed and all of whose targets are listed the least comes next. AllocError where memory runs out.
pub fn order_of(alloc: Global, graph: &[Vec<usize>]) -> Result<Vec<usize>, AllocError>
    requires range { InRange (lists graph.now) (length graph.now) }
    requires free { (a : ℕ) → Reach (HasEdge (lists graph.now)) a a → ⊥ }
    ensures order { IfOk result (λ os. IsOrder (HasEdge (lists graph.now)) (length graph.now) os.items) }
{
    let mut listed = none_listed(alloc, graph.len())?;
    let mut ends = target_counts(alloc, graph)?;
    let mut waiting = empty_rows(alloc, graph.len())?;
    let mut ready = BTreeSet::new(alloc);
    let all = numbers_below(alloc, graph.len())?;
    put_nodes(graph, &listed, &mut ends, &mut waiting, &mut ready, &all)?;
    list_all(
        alloc,
        graph,
        &mut listed,
        &mut ends,
        &mut waiting,
        &mut ready,
    )
}
