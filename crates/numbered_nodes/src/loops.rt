//! The loops of numbered nodes, a number for each.

ghost use Rattle.std.specs.Prelude.{◌≡◌, ◌≤◌, ◌<◌, ◌↔◌, ℕ, List, IfOk, get_or, length};
ghost use Rattle.numbered_nodes.specs.Bits.{room_for};
ghost use Rattle.numbered_nodes.specs.Reach.{Reach, InOneLoop};
ghost use Rattle.numbered_nodes.specs.Edges.{lists, HasEdge, InRange, Relates, HaveRoom};
ghost use Rattle.numbered_nodes.specs.Mates.{AreMates};

use crate::search::reach_rows;
use crate::sets::NumberSet;
use std::alloc::{AllocError, Global};

/// The least node in the loop of a node. A node that doesn't reach itself is on no cycle, and is its own loop.
fn least_mate(rows: &[NumberSet], a: usize) -> usize
    requires room { HaveRoom (room_for (length rows.now)) rows.now }
    requires chain { (a b c : ℕ) → Relates rows.now a b → Relates rows.now b c → Relates rows.now a c }
    requires node { a < length rows.now }
    ensures within { result ≤ a }
    ensures mate { AreMates rows.now a result }
    ensures least { (b : ℕ) → b < result → AreMates rows.now a b → ⊥ }
{
    if !rows[a].contains(a) {
        return a;
    }
    for b in 0..a {
        if rows[a].contains(b) && rows[b].contains(a) {
            return b;
        }
    }
    a
}

/// The loop of each node, from a row for each node with what it reaches. The number of a loop is the least node in
/// it, so two nodes have equal numbers exactly where they are the same or each is in the row of the other. AllocError
/// where memory runs out.
pub fn loop_numbers(alloc: Global, rows: &[NumberSet]) -> Result<Vec<usize>, AllocError>
    requires room { HaveRoom (room_for (length rows.now)) rows.now }
    requires chain { (a b c : ℕ) → Relates rows.now a b → Relates rows.now b c → Relates rows.now a c }
    ensures len { IfOk result (λ v. length v.items ≡ length rows.now) }
    ensures loops { IfOk result (λ v. (a b : ℕ) → a < length rows.now → b < length rows.now → (get_or v.items a 0 ≡ get_or v.items b 0) ↔ AreMates rows.now a b) }
    ensures least { IfOk result (λ v. (a : ℕ) → a < length rows.now → (get_or v.items a 0 ≤ a) × AreMates rows.now a (get_or v.items a 0)) }
{
    let mut numbers = Vec::new(alloc);
    for a in 0..rows.len() {
        numbers.push(least_mate(rows, a))?;
    }
    Ok(numbers)
}

/// The loop of each node of a graph, which has the targets of each node 0, 1, .. in a list, all of them nodes. The
/// number of a loop is the least node in it, so two nodes have equal numbers exactly where they are the same or each
/// reaches the other. AllocError where memory runs out.
pub fn loops_of(alloc: Global, graph: &[Vec<usize>]) -> Result<Vec<usize>, AllocError>
    requires range { InRange (lists graph.now) (length graph.now) }
    ensures len { IfOk result (λ v. length v.items ≡ length graph.now) }
    ensures loops { IfOk result (λ v. (a b : ℕ) → a < length graph.now → b < length graph.now → (get_or v.items a 0 ≡ get_or v.items b 0) ↔ InOneLoop (HasEdge (lists graph.now)) a b) }
    ensures least { IfOk result (λ v. (a : ℕ) → a < length graph.now → (get_or v.items a 0 ≤ a) × InOneLoop (HasEdge (lists graph.now)) a (get_or v.items a 0)) }
{
    let rows = reach_rows(alloc, graph)?;
    let numbers = loop_numbers(alloc, &rows)?;
    Ok(numbers)
}

/// Reach is transitive, and the least relation that has the edges and is transitive.
pub fn reach_is_least()
    ensures chain { (g : List (List ℕ)) (a b c : ℕ) → Reach (HasEdge g) a b → Reach (HasEdge g) b c → Reach (HasEdge g) a c }
    ensures least { (g rows : List (List ℕ)) → ((a b : ℕ) → HasEdge g a b → Relates rows a b) → ((a b c : ℕ) → Relates rows a b → Relates rows b c → Relates rows a c) → (a b : ℕ) → Reach (HasEdge g) a b → Relates rows a b }
{}

/// To be in one loop is an equivalence: the loops are classes.
pub fn loops_are_classes()
    ensures itself { (g : List (List ℕ)) (a : ℕ) → InOneLoop (HasEdge g) a a }
    ensures back { (g : List (List ℕ)) (a b : ℕ) → InOneLoop (HasEdge g) a b → InOneLoop (HasEdge g) b a }
    ensures on { (g : List (List ℕ)) (a b c : ℕ) → InOneLoop (HasEdge g) a b → InOneLoop (HasEdge g) b c → InOneLoop (HasEdge g) a c }
{}
