//! A search that goes over open nodes alone and marks what it finds.

ghost use Rattle.std.specs.Prelude.{◌≡◌, ◌⊎◌, ◌<◌, ◌≤◌, ◌+◌, ◌↔◌, ℕ, List, OnOk, get_or, length};
ghost use Rattle.std.specs.List.{All, Contains};
ghost use Rattle.numbered_nodes.specs.Edges.{lists, HasEdge, InRange};
ghost use Rattle.node_groups.specs.Marks.{Through, IsFound, IsSettled, IsSearch, unmarked, AreKept};

use std::alloc::{AllocError, Global};

/// Marks the open targets of a node that aren't marked yet, and leaves them to scan.
fn scan(
    graph: &[Vec<usize>],
    x: usize,
    keys: &[usize],
    key: usize,
    from: usize,
    marks: &mut [usize],
    left: &mut Vec<usize>,
) -> Result<(), AllocError>
    requires range { InRange (lists graph.now) (length graph.now) }
    requires x { x < length graph.now }
    requires len { (length keys.now ≡ length graph.now) × (length marks.old ≡ length graph.now) }
    requires search { IsSearch (lists graph.now) keys.now key from marks.old left.old.items x }
    requires found { IsFound (lists graph.now) keys.now key from x }
    ensures len { length marks.new ≡ length marks.old }
    ensures kept { AreKept from marks.old marks.new }
    ensures fewer { OnOk result (unmarked from marks.new + length left.new.items ≤ unmarked from marks.old + length left.old.items) }
    ensures search { OnOk result (IsSearch (lists graph.now) keys.now key from marks.new left.new.items x) }
    ensures settled { OnOk result (IsSettled (lists graph.now) keys.now key marks.new from x) }
{
    for y in &graph[x] {
        if keys[*y] == key && marks[*y] != from {
            marks[*y] = from;
            left.push(*y)?;
        }
    }
    Ok(())
}

/// Marks a node and all that it reaches over open nodes, those whose key is the one given, by the node's own number.
/// AllocError where memory runs out; some of them are marked then.
pub fn search(
    alloc: Global,
    graph: &[Vec<usize>],
    from: usize,
    keys: &[usize],
    key: usize,
    marks: &mut [usize],
) -> Result<(), AllocError>
    requires range { InRange (lists graph.now) (length graph.now) }
    requires from { from < length graph.now }
    requires len { (length keys.now ≡ length graph.now) × (length marks.old ≡ length graph.now) }
    requires new { (a : ℕ) → a < length graph.now → get_or marks.old a 0 ≡ from → ⊥ }
    ensures len { length marks.new ≡ length marks.old }
    ensures kept { AreKept from marks.old marks.new }
    ensures found { OnOk result ((b : ℕ) → b < length graph.now → (get_or marks.new b 0 ≡ from) ↔ IsFound (lists graph.now) keys.now key from b) }
{
    let mut left = Vec::new(alloc);
    left.push(from)?;
    marks[from] = from;
    while let Some(x) = left.pop() {
        scan(graph, x, keys, key, from, marks, &mut left)?;
    }
    Ok(())
}
