//! What the numbered nodes of a tree reach and need, their loops, and their order.
ghost use Rattle.std.specs.Prelude.{◌≡◌, ◌<◌, ◌^◌, ℕ, IfOk, get_or, length};
ghost use Rattle.std.specs.List.{All};
ghost use Rattle.mod_graph.specs.Places.{AreNumbers};
ghost use Rattle.mod_graph.specs.Rows.{AreRows};

use crate::edges::{module_edges, modules_of, node_edges};
use crate::entries::Entry;
use crate::places::Numbers;
use mk_base::memory::NoMemory;
use numbered_nodes::needs::{NeedsRows, needs_rows, node_loops};
use numbered_nodes::order::order_of;
use numbered_nodes::search::reach_rows;
use numbered_nodes::sets::NumberSet;
use std::alloc::Global;

/// A row for each node with what it reaches and one with what it needs, the number of each node's loop, which is its
/// first node, and the numbers of the nodes in their order.
#[derive(Drop)]
pub struct Rows {
    pub reach: Vec<NumberSet>,
    pub needs: Vec<NumberSet>,
    pub loops: Vec<usize>,
    pub order: Vec<usize>,
}

/// The rows of a tree. NoMemory where memory runs out.
pub fn rows_of(alloc: Global, entries: &[Entry], numbers: &Numbers) -> Result<Rows, NoMemory>
    requires numbers { AreNumbers numbers.now entries.now }
    requires few { length entries.now < 2 ^ 32 }
    ensures { IfOk result (λ r. AreRows r entries.now) }
{
    let nodes = node_edges(alloc, entries, numbers)?;
    let modules = module_edges(alloc, entries, numbers)?;
    let module_of = modules_of(alloc, entries, numbers)?;
    let reach = reach_rows(alloc, &nodes)?;
    let NeedsRows {
        rows: needs,
        loops: module_loops,
    } = needs_rows(alloc, &nodes, &modules, &module_of)?;
    let loops = node_loops(alloc, &module_loops, &module_of)?;
    let order = order_of(alloc, &needs)?;
    Ok(Rows {
        reach,
        needs,
        loops,
        order,
    })
}
