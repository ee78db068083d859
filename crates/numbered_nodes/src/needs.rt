//! What numbered nodes need, where each belongs to a module and imports lead from module to module.

ghost use Rattle.std.specs.Prelude.{◌≡◌, ◌≤◌, ◌<◌, ◌+◌, ◌↔◌, ℕ, List, IfOk, get_or, length};
ghost use Rattle.std.specs.List.{All};
ghost use Rattle.numbered_nodes.specs.Bits.{room_for};
ghost use Rattle.numbered_nodes.specs.Reach.{InOneLoop};
ghost use Rattle.numbered_nodes.specs.Edges.{lists, HasEdge, InRange, Relates, HaveRoom};
ghost use Rattle.numbered_nodes.specs.Needs.{Needs, InLoop, Follows, NeedsAreReached, HubsLead};

use crate::loops::loops_of;
use crate::sets::NumberSet;
use crate::steps::step_rows;
use std::alloc::{AllocError, Global};

/// What the nodes of a graph need, a row for each, and the loops of their modules, a number for each.
#[derive(Drop)]
pub struct NeedsRows {
    pub rows: Vec<NumberSet>,
    pub loops: Vec<usize>,
}

/// The loop of each node, where `loops` has the loop of each module and `module_of` the module of each node. AllocError
/// where memory runs out.
pub fn node_loops(
    alloc: Global,
    loops: &[usize],
    module_of: &[usize],
) -> Result<Vec<usize>, AllocError>
    requires { All (λ m. m < length loops.now) module_of.now }
    ensures len { IfOk result (λ v. length v.items ≡ length module_of.now) }
    ensures loops { IfOk result (λ v. (a : ℕ) → a < length module_of.now → get_or v.items a 0 ≡ get_or loops.now (get_or module_of.now a 0) 0) }
{
    let mut own = Vec::new(alloc);
    for a in 0..module_of.len() {
        own.push(loops[module_of[a]])?;
    }
    Ok(own)
}

/// A row for each node 0, 1, .. with what it needs: all nodes that it reaches and, with each node of another loop of
/// modules, all nodes of that loop and what these reach. `nodes` has the targets of each node, `modules` those of each
/// module, and `module_of` the module of each node; an edge of nodes stays in its module or is an edge of modules, and
/// there are no more modules than nodes. The rows have room for twice the number of nodes. With them comes the loop of
/// each module, whose number is the least module in it. AllocError where memory runs out.
pub fn needs_rows(
    alloc: Global,
    nodes: &[Vec<usize>],
    modules: &[Vec<usize>],
    module_of: &[usize],
) -> Result<NeedsRows, AllocError>
    requires len { length nodes.now ≡ length module_of.now }
    requires range { InRange (lists nodes.now) (length module_of.now) }
    requires modules { InRange (lists modules.now) (length modules.now) }
    requires module_of { All (λ m. m < length modules.now) module_of.now }
    requires few { length modules.now ≤ length module_of.now }
    requires follows { Follows (HasEdge (lists nodes.now)) (HasEdge (lists modules.now)) (λ a. get_or module_of.now a 0) (length module_of.now) }
    ensures len { IfOk result (λ r. length r.rows.items ≡ length module_of.now) }
    ensures room { IfOk result (λ r. HaveRoom (room_for (length module_of.now + length module_of.now)) r.rows.items) }
    ensures needs { IfOk result (λ r. (a b : ℕ) → a < length module_of.now → b < length module_of.now → Relates r.rows.items a b ↔ Needs (HasEdge (lists nodes.now)) (InLoop (HasEdge (lists nodes.now)) (HasEdge (lists modules.now)) (λ c. get_or module_of.now c 0) (length module_of.now)) (length module_of.now) a b) }
    ensures loops_len { IfOk result (λ r. length r.loops.items ≡ length modules.now) }
    ensures loops { IfOk result (λ r. (a b : ℕ) → a < length modules.now → b < length modules.now → (get_or r.loops.items a 0 ≡ get_or r.loops.items b 0) ↔ InOneLoop (HasEdge (lists modules.now)) a b) }
    ensures least { IfOk result (λ r. (a : ℕ) → a < length modules.now → (get_or r.loops.items a 0 ≤ a) × InOneLoop (HasEdge (lists modules.now)) a (get_or r.loops.items a 0)) }
{
    let loops = loops_of(alloc, modules)?;
    let own = node_loops(alloc, &loops, module_of)?;
    let rows = step_rows(alloc, nodes, &own)?;
    Ok(NeedsRows { rows, loops })
}

/// Over edges of nodes and of modules, what a node needs is what it reaches by steps that lead into another loop at any of its nodes.
pub fn needs_are_reached()
    ensures { (nodes modules : List (List ℕ)) (module_of : List ℕ) (n : ℕ) → NeedsAreReached (HasEdge nodes) (HasEdge modules) (λ a. get_or module_of a 0) n }
{}

/// A node of its own for each loop, behind the others, gives the same steps with few edges.
pub fn hubs_lead()
    ensures { (nodes : List (List ℕ)) (loops : List ℕ) (n : ℕ) → HubsLead (HasEdge nodes) (λ a. get_or loops a 0) n }
{}
