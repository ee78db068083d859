//! A name for the loop of each node.

ghost use Rattle.std.specs.Prelude.{◌≡◌, ◌<◌, ◌↔◌, ℕ, List, IfOk, OnOk, get_or, length};
ghost use Rattle.std.specs.List.{All};
ghost use Rattle.numbered_nodes.specs.Reach.{InOneLoop};
ghost use Rattle.numbered_nodes.specs.Edges.{lists, HasEdge, InRange};
ghost use Rattle.node_groups.specs.Parted.{AreParted};

use crate::search::search;
use crate::turned::turned;
use numbered_nodes::finish::finish_order;
use std::alloc::{AllocError, Global};

/// Names the loop of a node that has no name yet: of the nodes without a name that lead to it, those that it leads to
/// through these. `marks` is room for the first search.
fn name_loop(
    alloc: Global,
    graph: &[Vec<usize>],
    back: &[Vec<usize>],
    from: usize,
    names: &mut [usize],
    marks: &mut [usize],
) -> Result<(), AllocError>
    requires range { InRange (lists graph.now) (length graph.now) }
    requires back_range { InRange (lists back.now) (length graph.now) }
    requires turned { (a b : ℕ) → HasEdge (lists back.now) b a ↔ HasEdge (lists graph.now) a b }
    requires from { from < length graph.now }
    requires len { (length back.now ≡ length graph.now) × (length names.old ≡ length graph.now) × (length marks.old ≡ length graph.now) }
    requires parted { AreParted (HasEdge (lists graph.now)) (length graph.now) names.old marks.old }
    requires free { get_or names.old from 0 ≡ length graph.now }
    ensures len { (length names.new ≡ length names.old) × (length marks.new ≡ length marks.old) }
    ensures parted { OnOk result (AreParted (HasEdge (lists graph.now)) (length graph.now) names.new marks.new) }
    ensures kept { OnOk result ((a : ℕ) → a < length graph.now → (get_or names.old a 0 ≡ length graph.now → ⊥) → get_or names.new a 0 ≡ length graph.now → ⊥) }
    ensures named { OnOk result (get_or names.new from 0 ≡ from) }
{
    let free = graph.len();
    search(alloc, back, from, names, free, marks)?;
    search(alloc, graph, from, marks, from, names)
}

/// Names the loop of a node where it has no name yet.
fn name_once(
    alloc: Global,
    graph: &[Vec<usize>],
    back: &[Vec<usize>],
    from: usize,
    names: &mut [usize],
    marks: &mut [usize],
) -> Result<(), AllocError>
    requires range { InRange (lists graph.now) (length graph.now) }
    requires back_range { InRange (lists back.now) (length graph.now) }
    requires turned { (a b : ℕ) → HasEdge (lists back.now) b a ↔ HasEdge (lists graph.now) a b }
    requires from { from < length graph.now }
    requires len { (length back.now ≡ length graph.now) × (length names.old ≡ length graph.now) × (length marks.old ≡ length graph.now) }
    requires parted { AreParted (HasEdge (lists graph.now)) (length graph.now) names.old marks.old }
    ensures len { (length names.new ≡ length names.old) × (length marks.new ≡ length marks.old) }
    ensures parted { OnOk result (AreParted (HasEdge (lists graph.now)) (length graph.now) names.new marks.new) }
    ensures kept { OnOk result ((a : ℕ) → a < length graph.now → (get_or names.old a 0 ≡ length graph.now → ⊥) → get_or names.new a 0 ≡ length graph.now → ⊥) }
    ensures named { OnOk result (get_or names.new from 0 ≡ length graph.now → ⊥) }
{
    if names[from] == graph.len() {
        name_loop(alloc, graph, back, from, names, marks)
    } else {
        Ok(())
    }
}

/// Names all loops. The loops are named last finished first, so that each search stays within one loop and its
/// neighbours; any order gives the same classes.
fn name_all(
    alloc: Global,
    graph: &[Vec<usize>],
    names: &mut [usize],
    marks: &mut [usize],
) -> Result<(), AllocError>
    requires range { InRange (lists graph.now) (length graph.now) }
    requires len { (length names.old ≡ length graph.now) × (length marks.old ≡ length graph.now) }
    requires parted { AreParted (HasEdge (lists graph.now)) (length graph.now) names.old marks.old }
    ensures len { length names.new ≡ length names.old }
    ensures parted { OnOk result (AreParted (HasEdge (lists graph.now)) (length graph.now) names.new marks.new) }
    ensures all { OnOk result ((a : ℕ) → a < length graph.now → get_or names.new a 0 ≡ length graph.now → ⊥) }
{
    let back = turned(alloc, graph)?;
    let mut order = finish_order(alloc, graph)?;
    while let Some(from) = order.pop() {
        name_once(alloc, graph, &back, from, names, marks)?;
    }
    for from in 0..graph.len() {
        name_once(alloc, graph, &back, from, names, marks)?;
    }
    Ok(())
}

/// A name for the loop of each node of a graph, which has the targets of each node 0, 1, .. in a list, all of them
/// nodes. Two nodes have equal names exactly where they are the same or each reaches the other, and the name is a node
/// of the loop. AllocError where memory runs out.
pub fn components(alloc: Global, graph: &[Vec<usize>]) -> Result<Vec<usize>, AllocError>
    requires range { InRange (lists graph.now) (length graph.now) }
    ensures len { IfOk result (λ v. length v.items ≡ length graph.now) }
    ensures nodes { IfOk result (λ v. All (λ a. a < length graph.now) v.items) }
    ensures loops { IfOk result (λ v. (a b : ℕ) → a < length graph.now → b < length graph.now → (get_or v.items a 0 ≡ get_or v.items b 0) ↔ InOneLoop (HasEdge (lists graph.now)) a b) }
{
    let count = graph.len();
    let mut names = Vec::new(alloc);
    names.resize(count, count)?;
    let mut marks = Vec::new(alloc);
    marks.resize(count, count)?;
    name_all(alloc, graph, &mut names, &mut marks)?;
    Ok(names)
}
