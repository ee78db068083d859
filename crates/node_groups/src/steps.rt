//! The graph of loops.

ghost use Rattle.std.specs.Prelude.{◌≡◌, ◌⊎◌, ◌<◌, ◌↔◌, ℕ, List, [], IfOk, OnOk, get_or, length};
ghost use Rattle.std.specs.List.{All, Contains};
ghost use Rattle.numbered_nodes.specs.Edges.{lists, HasEdge, InRange};
ghost use Rattle.node_groups.specs.Steps.{IsAway, IsStep};

use crate::turned::empty_rows;
use std::alloc::{AllocError, Global};

/// Puts the other loops into a row that targets are in.
fn add_away(
    row: &mut Vec<usize>,
    targets: &[usize],
    loops: &[usize],
    own: usize,
) -> Result<(), AllocError>
    requires targets { All (λ b. b < length loops.now) targets.now }
    ensures { OnOk result ((y : ℕ) → Contains row.new.items y ↔ (Contains row.old.items y ⊎ IsAway targets.now loops.now own y)) }
{
    for target in targets {
        let theirs = loops[*target];
        if theirs != own {
            row.push(theirs)?;
        }
    }
    Ok(())
}

/// Puts the steps of each node into the row of its loop.
fn add_steps(
    rows: &mut [Vec<usize>],
    graph: &[Vec<usize>],
    loops: &[usize],
) -> Result<(), AllocError>
    requires range { InRange (lists graph.now) (length graph.now) }
    requires loops { (length loops.now ≡ length graph.now) × All (λ k. k < length graph.now) loops.now }
    requires rows { (length rows.old ≡ length graph.now) × ((z : ℕ) → get_or (lists rows.old) z [] ≡ []) }
    ensures len { length rows.new ≡ length rows.old }
    ensures steps { OnOk result ((k y : ℕ) → HasEdge (lists rows.new) k y ↔ IsStep (lists graph.now) loops.now k y) }
{
    for node in 0..graph.len() {
        add_away(&mut rows[loops[node]], &graph[node], loops, loops[node])?;
    }
    Ok(())
}

/// The graph of loops: an edge between two loops where a node of the one leads to one of the other. AllocError where
/// memory runs out.
pub fn step_graph(
    alloc: Global,
    graph: &[Vec<usize>],
    loops: &[usize],
) -> Result<Vec<Vec<usize>>, AllocError>
    requires range { InRange (lists graph.now) (length graph.now) }
    requires loops { (length loops.now ≡ length graph.now) × All (λ k. k < length graph.now) loops.now }
    ensures len { IfOk result (λ v. length v.items ≡ length graph.now) }
    ensures steps { IfOk result (λ v. (k y : ℕ) → HasEdge (lists v.items) k y ↔ IsStep (lists graph.now) loops.now k y) }
{
    let mut rows = empty_rows(alloc, graph.len())?;
    add_steps(&mut rows, graph, loops)?;
    Ok(rows)
}
