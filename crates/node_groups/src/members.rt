//! The members of each loop.

ghost use Rattle.std.specs.Prelude.{◌≡◌, ◌<◌, ◌↔◌, ℕ, List, [], IfOk, OnOk, get_or, length};
ghost use Rattle.std.specs.List.{All};
ghost use Rattle.numbered_nodes.specs.Edges.{lists, HasEdge};
ghost use Rattle.node_groups.specs.Rising.{AreRising};

use crate::turned::empty_rows;
use std::alloc::{AllocError, Global};

/// Puts each node into the row of its loop.
fn add_members(rows: &mut [Vec<usize>], loops: &[usize]) -> Result<(), AllocError>
    requires len { length rows.old ≡ length loops.now }
    requires below { All (λ k. k < length loops.now) loops.now }
    requires none { (z : ℕ) → get_or (lists rows.old) z [] ≡ [] }
    ensures len { length rows.new ≡ length rows.old }
    ensures members { OnOk result ((k a : ℕ) → HasEdge (lists rows.new) k a ↔ ((a < length loops.now) × (get_or loops.now a 0 ≡ k))) }
    ensures rising { OnOk result ((k : ℕ) → AreRising (get_or (lists rows.new) k [])) }
{
    for node in 0..loops.len() {
        rows[loops[node]].push(node)?;
    }
    Ok(())
}

/// The members of each loop, rising, at the loop's number. AllocError where memory runs out.
pub fn members(alloc: Global, loops: &[usize]) -> Result<Vec<Vec<usize>>, AllocError>
    requires { All (λ k. k < length loops.now) loops.now }
    ensures len { IfOk result (λ v. length v.items ≡ length loops.now) }
    ensures members { IfOk result (λ v. (k a : ℕ) → HasEdge (lists v.items) k a ↔ ((a < length loops.now) × (get_or loops.now a 0 ≡ k))) }
    ensures rising { IfOk result (λ v. (k : ℕ) → AreRising (get_or (lists v.items) k [])) }
{
    let mut rows = empty_rows(alloc, loops.len())?;
    add_members(&mut rows, loops)?;
    Ok(rows)
}
