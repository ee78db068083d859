//! The graph of steps: the nodes, and behind them a node for each loop, so that its edges stay few.

ghost use Rattle.std.specs.Prelude.{◌≡◌, ◌⊎◌, ◌<◌, ◌≤◌, ◌+◌, ◌++◌, ◌↔◌, ℕ, List, IfOk, OnOk, get_or, length, replicate, []};
ghost use Rattle.std.specs.List.{All, Contains};
ghost use Rattle.numbered_nodes.specs.Bits.{room_for};
ghost use Rattle.numbered_nodes.specs.Reach.{Reach};
ghost use Rattle.numbered_nodes.specs.Edges.{lists, HasEdge, InRange, Relates, HaveRoom};
ghost use Rattle.numbered_nodes.specs.Needs.{Hub, Leads, InOneNumber};
ghost use Rattle.numbered_nodes.specs.Away.{LeadsAway};

use crate::search::reach_rows;
use crate::sets::NumberSet;
use std::alloc::{AllocError, Global};

/// The targets of a node, and the node of each other loop that they are in.
fn node_row(
    alloc: Global,
    targets: &[usize],
    loops: &[usize],
    own: usize,
) -> Result<Vec<usize>, AllocError>
    requires targets { All (λ b. b < length loops.now) targets.now }
    requires loops { All (λ k. k < length loops.now) loops.now }
    ensures { IfOk result (λ row. (y : ℕ) → Contains row.items y ↔ (Contains targets.now y ⊎ LeadsAway targets.now loops.now own y)) }
{
    let mut row = Vec::from_slice(alloc, targets)?;
    for z in targets {
        let theirs = loops[*z];
        if theirs != own {
            row.push(loops.len() + theirs)?;
        }
    }
    Ok(row)
}

/// The rows of the nodes: the targets of each, and the node of each other loop that they are in.
fn node_rows(
    alloc: Global,
    graph: &[Vec<usize>],
    loops: &[usize],
) -> Result<Vec<Vec<usize>>, AllocError>
    requires range { InRange (lists graph.now) (length loops.now) }
    requires len { length graph.now ≡ length loops.now }
    requires loops { All (λ k. k < length loops.now) loops.now }
    ensures len { IfOk result (λ g. length g.items ≡ length loops.now) }
    ensures edges { IfOk result (λ g. (x y : ℕ) → x < length loops.now → HasEdge (lists g.items) x y ↔ Hub (HasEdge (lists graph.now)) (λ a. get_or loops.now a 0) (length loops.now) x y) }
{
    let mut rows = Vec::new(alloc);
    for a in 0..loops.len() {
        rows.push(node_row(alloc, &graph[a], loops, loops[a])?)?;
    }
    Ok(rows)
}

/// Puts so many rows with no target behind the others.
fn add_empty_rows(alloc: Global, rows: &mut Vec<Vec<usize>>, count: usize) -> Result<(), AllocError>
    ensures { OnOk result (lists rows.new.items ≡ lists rows.old.items ++ replicate count []) }
{
    for turn in 0..count {
        let _ = turn;
        rows.push(Vec::new(alloc))?;
    }
    Ok(())
}

/// Puts each node into the row of its loop, which stands behind the rows of the nodes.
fn add_members(rows: &mut [Vec<usize>], loops: &[usize]) -> Result<(), AllocError>
    requires len { length rows.old ≡ length loops.now + length loops.now }
    requires loops { All (λ k. k < length loops.now) loops.now }
    ensures len { length rows.new ≡ length rows.old }
    ensures edges { OnOk result ((x y : ℕ) → HasEdge (lists rows.new) x y ↔ (HasEdge (lists rows.old) x y ⊎ ((y < length loops.now) × (x ≡ length loops.now + get_or loops.now y 0)))) }
{
    for b in 0..loops.len() {
        rows[loops.len() + loops[b]].push(b)?;
    }
    Ok(())
}

/// The graph of steps over a graph, which has the targets of each node 0, 1, .. in a list, from the number of each
/// node's loop, which is below the number of nodes. Node n + k, where there are n nodes, stands for the loop k: an edge
/// into another loop leads to that loop's node too, and this one to each node of the loop. AllocError where memory runs
/// out.
pub fn step_graph(
    alloc: Global,
    graph: &[Vec<usize>],
    loops: &[usize],
) -> Result<Vec<Vec<usize>>, AllocError>
    requires range { InRange (lists graph.now) (length loops.now) }
    requires len { length graph.now ≡ length loops.now }
    requires loops { All (λ k. k < length loops.now) loops.now }
    ensures len { IfOk result (λ g. length g.items ≡ length loops.now + length loops.now) }
    ensures edges { IfOk result (λ g. (x y : ℕ) → HasEdge (lists g.items) x y ↔ Hub (HasEdge (lists graph.now)) (λ a. get_or loops.now a 0) (length loops.now) x y) }
{
    let mut rows = node_rows(alloc, graph, loops)?;
    add_empty_rows(alloc, &mut rows, loops.len())?;
    add_members(&mut rows, loops)?;
    Ok(rows)
}

/// A row for each node with what it reaches by steps: an edge, and where that leads into another loop, on to any node
/// of that loop. The rows have room for twice the number of nodes. AllocError where memory runs out.
pub fn step_rows(
    alloc: Global,
    graph: &[Vec<usize>],
    loops: &[usize],
) -> Result<Vec<NumberSet>, AllocError>
    requires range { InRange (lists graph.now) (length loops.now) }
    requires len { length graph.now ≡ length loops.now }
    requires loops { All (λ k. k < length loops.now) loops.now }
    ensures len { IfOk result (λ rows. length rows.items ≡ length loops.now) }
    ensures room { IfOk result (λ rows. HaveRoom (room_for (length loops.now + length loops.now)) rows.items) }
    ensures steps { IfOk result (λ rows. (a b : ℕ) → a < length loops.now → b < length loops.now → Relates rows.items a b ↔ Reach (Leads (HasEdge (lists graph.now)) (InOneNumber (HasEdge (lists graph.now)) (λ c. get_or loops.now c 0) (length loops.now)) (length loops.now)) a b) }
{
    let steps = step_graph(alloc, graph, loops)?;
    let mut rows = reach_rows(alloc, &steps)?;
    rows.truncate(loops.len());
    Ok(rows)
}
