//! What each node of a graph reaches, by one search from each that takes over the rows that are known.

ghost use Rattle.std.specs.Prelude.{◌≡◌, ◌⊎◌, ◌≤◌, ◌<◌, ◌+◌, ◌*◌, ◌↔◌, ℕ, List, [], true, false, IfOk, OnOk, get_or, map, length};
ghost use Rattle.std.specs.List.{Contains, All};
ghost use Rattle.numbered_nodes.specs.Bits.{has, room, room_for, absent};
ghost use Rattle.numbered_nodes.specs.Reach.{Reach};
ghost use Rattle.numbered_nodes.specs.Edges.{lists, HasEdge, InRange, Relates, HaveRoom};
ghost use Rattle.numbered_nodes.specs.Search.{IsSettled, AreExact, Scanned};

use crate::finish::finish_order;
use crate::sets::NumberSet;
use std::alloc::{AllocError, Global};

/// Takes over the whole row of a target.
fn take_over(row: &mut NumberSet, target: usize, reached: &NumberSet)
    requires room { room row.old ≡ room reached.now }
    requires target { target < room row.old }
    ensures room { room row.new ≡ room row.old }
    ensures has { (k : ℕ) → (has row.new k ≡ true) ↔ ((has row.old k ≡ true) ⊎ ((k ≡ target) ⊎ (has reached.now k ≡ true))) }
{
    row.insert(target);
    row.add_all(reached);
}

/// Puts the targets of a node into the row, with all that is known of them; those of which nothing is known are left to scan.
fn scan(
    graph: &[Vec<usize>],
    x: usize,
    rows: &[NumberSet],
    done: &[bool],
    row: &mut NumberSet,
    left: &mut Vec<usize>,
) -> Result<(), AllocError>
    requires range { InRange (lists graph.now) (length graph.now) }
    requires x { x < length graph.now }
    requires len { (length done.now ≡ length graph.now) × (length rows.now ≡ length graph.now) }
    requires room { HaveRoom (room_for (length graph.now)) rows.now }
    requires row { room row.old ≡ room_for (length graph.now) }
    requires exact { AreExact (lists graph.now) done.now rows.now }
    ensures room { room row.new ≡ room row.old }
    ensures scanned { OnOk result (Scanned (lists graph.now) x row.old left.old.items row.new left.new.items) }
    ensures targets { OnOk result (IsSettled (lists graph.now) row.new x) }
{
    for y in &graph[x] {
        if !row.contains(*y) {
            if done[*y] {
                take_over(row, *y, &rows[*y]);
            } else {
                left.push(*y)?;
                row.insert(*y);
            }
        }
    }
    Ok(())
}

/// What a node reaches, where the rows of the nodes that are done are known.
fn flood(
    alloc: Global,
    graph: &[Vec<usize>],
    from: usize,
    rows: &[NumberSet],
    done: &[bool],
) -> Result<NumberSet, AllocError>
    requires range { InRange (lists graph.now) (length graph.now) }
    requires from { from < length graph.now }
    requires len { (length done.now ≡ length graph.now) × (length rows.now ≡ length graph.now) }
    requires room { HaveRoom (room_for (length graph.now)) rows.now }
    requires exact { AreExact (lists graph.now) done.now rows.now }
    ensures room { IfOk result (λ s. room s ≡ room_for (length graph.now)) }
    ensures reach { IfOk result (λ s. (b : ℕ) → (has s b ≡ true) ↔ Reach (HasEdge (lists graph.now)) from b) }
{
    let mut row = NumberSet::empty(alloc, graph.len())?;
    let mut left = Vec::new(alloc);
    left.push(from)?;
    while let Some(x) = left.pop() {
        scan(graph, x, rows, done, &mut row, &mut left)?;
    }
    Ok(row)
}

/// No rows, all of them empty.
fn no_rows(alloc: Global, count: usize) -> Result<Vec<NumberSet>, AllocError>
    ensures len { IfOk result (λ rows. length rows.items ≡ count) }
    ensures room { IfOk result (λ rows. HaveRoom (room_for count) rows.items) }
{
    let mut rows = Vec::new(alloc);
    for turn in 0..count {
        let _ = turn;
        rows.push(NumberSet::empty(alloc, count)?)?;
    }
    Ok(rows)
}

/// What each node reaches. The nodes are searched in the order of `first`, then in their own; any order gives the same.
fn rows_in_order(
    alloc: Global,
    graph: &[Vec<usize>],
    first: &[usize],
) -> Result<Vec<NumberSet>, AllocError>
    requires range { InRange (lists graph.now) (length graph.now) }
    requires first { All (λ a. a < length graph.now) first.now }
    ensures len { IfOk result (λ rows. length rows.items ≡ length graph.now) }
    ensures room { IfOk result (λ rows. HaveRoom (room_for (length graph.now)) rows.items) }
    ensures reach { IfOk result (λ rows. (a b : ℕ) → Relates rows.items a b ↔ Reach (HasEdge (lists graph.now)) a b) }
{
    let mut rows = no_rows(alloc, graph.len())?;
    let mut done = Vec::new(alloc);
    done.resize(graph.len(), false)?;
    for a in first {
        rows[*a] = flood(alloc, graph, *a, &rows, &done)?;
        done[*a] = true;
    }
    for a in 0..graph.len() {
        if !done[a] {
            rows[a] = flood(alloc, graph, a, &rows, &done)?;
            done[a] = true;
        }
    }
    Ok(rows)
}

/// A row for each node of a graph, the set of what the node reaches by one edge or more, with room for the number of
/// nodes. The graph has the targets of each node 0, 1, .. in a list, all of them nodes. AllocError where memory runs out.
pub fn reach_rows(alloc: Global, graph: &[Vec<usize>]) -> Result<Vec<NumberSet>, AllocError>
    requires range { InRange (lists graph.now) (length graph.now) }
    ensures len { IfOk result (λ rows. length rows.items ≡ length graph.now) }
    ensures room { IfOk result (λ rows. HaveRoom (room_for (length graph.now)) rows.items) }
    ensures reach { IfOk result (λ rows. (a b : ℕ) → Relates rows.items a b ↔ Reach (HasEdge (lists graph.now)) a b) }
{
    let first = finish_order(alloc, graph)?;
    rows_in_order(alloc, graph, &first)
}
