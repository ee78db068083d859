//! Whether headers are of different nodes.
ghost use Rattle.std.specs.Prelude.{◌↔◌, IfOk, IsTrue};
ghost use Rattle.mod_graph.specs.Graph.{AreDistinct};

use crate::input::HeaderOf;
use indexmap::IndexSet;
use mk_base::memory::NoMemory;
use std::alloc::Global;

/// Whether no two of these headers are of one node, as a graph asks of its headers. NoMemory where memory runs out.
pub fn are_distinct(alloc: Global, headers: &[HeaderOf]) -> Result<bool, NoMemory>
    ensures { IfOk result (λ distinct. IsTrue distinct ↔ AreDistinct headers.now) }
{
    let mut seen = IndexSet::new(alloc);
    for header in headers {
        let added = seen.insert(header.node.copy(alloc)?)?;
        if !added {
            return Ok(false);
        }
    }
    Ok(true)
}
