//! Nodes that wait for one unlisted target each, until none is left.

ghost use Rattle.std.specs.Prelude.{◌≡◌, ◌⊎◌, ◌<◌, ◌≤◌, ◌-◌, ◌↔◌, ◌∷◌, ℕ, List, [], true, false, OnOk, get_or, set, length};
ghost use Rattle.std.specs.List.{All, Contains};
ghost use Rattle.numbered_nodes.specs.Edges.{lists, HasEdge, InRange};
ghost use Rattle.node_groups.specs.Queue.{Is, IsQueue, AreEnds};

use crate::ready::put_ready;
use std::alloc::{AllocError, Global};
use std::collections::BTreeSet;
use std::mem;

/// How many targets are left, of the first ones of a list, up to the last one that isn't listed.
fn left_of(targets: &[usize], end: usize, listed: &[bool]) -> usize
    requires end { end ≤ length targets.now }
    requires range { All (λ z. z < length listed.now) targets.now }
    ensures within { result ≤ end }
    ensures listed { (i : ℕ) → result ≤ i → i < end → Is listed.now (get_or targets.now i 0) true }
    ensures out { 0 < result → Is listed.now (get_or targets.now (result - 1) 0) false }
{
    let mut left = end;
    while left > 0 && listed[targets[left - 1]] {
        left -= 1;
    }
    left
}

/// Puts a node behind those that wait for a target.
fn wait_for(waiting: &mut [Vec<usize>], target: usize, node: usize) -> Result<(), AllocError>
    requires { target < length waiting.old }
    ensures len { length waiting.new ≡ length waiting.old }
    ensures edges { OnOk result ((z x : ℕ) → HasEdge (lists waiting.new) z x ↔ (HasEdge (lists waiting.old) z x ⊎ ((z ≡ target) × (x ≡ node)))) }
{
    waiting[target].push(node)?;
    Ok(())
}

/// Puts a node that isn't listed behind those that wait for a target of its own that isn't listed either, and into the
/// set of those that are ready where there is none. From the end of a node on all its targets are listed.
fn put_node(
    graph: &[Vec<usize>],
    listed: &[bool],
    ends: &mut [usize],
    waiting: &mut [Vec<usize>],
    ready: &mut BTreeSet<usize>,
    node: usize,
) -> Result<(), AllocError>
    requires range { InRange (lists graph.now) (length graph.now) }
    requires node { node < length graph.now }
    requires listed { length listed.now ≡ length graph.now }
    requires ends { (length ends.old ≡ length graph.now) × AreEnds (lists graph.now) ends.old }
    requires waiting { length waiting.old ≡ length graph.now }
    ensures ends { (length ends.new ≡ length graph.now) × AreEnds (lists graph.now) ends.new }
    ensures waiting { length waiting.new ≡ length graph.now }
    ensures queue { OnOk result ((rest : List ℕ) → IsQueue (lists graph.now) (length graph.now) listed.now ends.old (lists waiting.old) ready.old.keys (node ∷ rest) → IsQueue (lists graph.now) (length graph.now) listed.now ends.new (lists waiting.new) ready.new.keys rest) }
{
    let targets = graph[node].as_slice();
    let left = left_of(targets, ends[node], listed);
    ends[node] = left;
    if left > 0 {
        wait_for(waiting, targets[left - 1], node)
    } else {
        put_ready(ready, node)
    }
}

/// Puts each of some nodes that aren't listed.
pub fn put_nodes(
    graph: &[Vec<usize>],
    listed: &[bool],
    ends: &mut [usize],
    waiting: &mut [Vec<usize>],
    ready: &mut BTreeSet<usize>,
    nodes: &[usize],
) -> Result<(), AllocError>
    requires range { InRange (lists graph.now) (length graph.now) }
    requires listed { length listed.now ≡ length graph.now }
    requires ends { (length ends.old ≡ length graph.now) × AreEnds (lists graph.now) ends.old }
    requires waiting { length waiting.old ≡ length graph.now }
    requires queue { IsQueue (lists graph.now) (length graph.now) listed.now ends.old (lists waiting.old) ready.old.keys nodes.now }
    ensures ends { (length ends.new ≡ length graph.now) × AreEnds (lists graph.now) ends.new }
    ensures waiting { length waiting.new ≡ length graph.now }
    ensures queue { OnOk result (IsQueue (lists graph.now) (length graph.now) listed.now ends.new (lists waiting.new) ready.new.keys []) }
{
    for node in nodes {
        put_node(graph, listed, ends, waiting, ready, *node)?;
    }
    Ok(())
}

/// Lists a node that was ready, and puts those again that waited for it.
pub fn list_node(
    alloc: Global,
    graph: &[Vec<usize>],
    listed: &mut [bool],
    ends: &mut [usize],
    waiting: &mut [Vec<usize>],
    ready: &mut BTreeSet<usize>,
    node: usize,
) -> Result<(), AllocError>
    requires range { InRange (lists graph.now) (length graph.now) }
    requires node { node < length graph.now }
    requires listed { length listed.old ≡ length graph.now }
    requires ends { (length ends.old ≡ length graph.now) × AreEnds (lists graph.now) ends.old }
    requires waiting { length waiting.old ≡ length graph.now }
    requires queue { (before : List ℕ) × IsQueue (lists graph.now) (length graph.now) listed.old ends.old (lists waiting.old) before [] × Contains before node × ((a : ℕ) → Contains ready.old.keys a ↔ (Contains before a × (a ≡ node → ⊥))) }
    ensures listed { listed.new ≡ set listed.old node true }
    ensures ends { (length ends.new ≡ length graph.now) × AreEnds (lists graph.now) ends.new }
    ensures waiting { length waiting.new ≡ length graph.now }
    ensures queue { OnOk result (IsQueue (lists graph.now) (length graph.now) listed.new ends.new (lists waiting.new) ready.new.keys []) }
{
    listed[node] = true;
    let waiters = mem::replace(&mut waiting[node], Vec::new(alloc));
    put_nodes(graph, listed, ends, waiting, ready, &waiters)
}
