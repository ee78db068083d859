//! A graph with its edges turned.

ghost use Rattle.std.specs.Prelude.{◌≡◌, ◌⊎◌, ◌<◌, ◌↔◌, ℕ, List, [], IfOk, OnOk, get_or, length};
ghost use Rattle.std.specs.List.{All, Contains};
ghost use Rattle.numbered_nodes.specs.Edges.{lists, HasEdge, InRange};

use std::alloc::{AllocError, Global};

/// So many rows with no target.
pub fn empty_rows(alloc: Global, count: usize) -> Result<Vec<Vec<usize>>, AllocError>
    ensures len { IfOk result (λ v. length v.items ≡ count) }
    ensures none { IfOk result (λ v. (z : ℕ) → get_or (lists v.items) z [] ≡ []) }
{
    let mut rows = Vec::new(alloc);
    for row in 0..count {
        let _ = row;
        rows.push(Vec::new(alloc))?;
    }
    Ok(rows)
}

/// Puts a node into the rows of its targets.
fn add_source(rows: &mut [Vec<usize>], targets: &[usize], node: usize) -> Result<(), AllocError>
    requires range { All (λ b. b < length rows.old) targets.now }
    ensures len { length rows.new ≡ length rows.old }
    ensures edges { OnOk result ((b a : ℕ) → HasEdge (lists rows.new) b a ↔ (HasEdge (lists rows.old) b a ⊎ ((a ≡ node) × Contains targets.now b))) }
{
    for target in targets {
        rows[*target].push(node)?;
    }
    Ok(())
}

/// The graph with its edges turned. AllocError where memory runs out.
pub fn turned(alloc: Global, graph: &[Vec<usize>]) -> Result<Vec<Vec<usize>>, AllocError>
    requires range { InRange (lists graph.now) (length graph.now) }
    ensures len { IfOk result (λ r. length r.items ≡ length graph.now) }
    ensures range { IfOk result (λ r. InRange (lists r.items) (length graph.now)) }
    ensures edges { IfOk result (λ r. (a b : ℕ) → HasEdge (lists r.items) b a ↔ HasEdge (lists graph.now) a b) }
{
    let mut rows = empty_rows(alloc, graph.len())?;
    for node in 0..graph.len() {
        add_source(&mut rows, &graph[node], node)?;
    }
    Ok(rows)
}
