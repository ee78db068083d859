//! Where what a node sees of the modules that it imports stands in a plan's order.
ghost use Rattle.std.specs.Prelude.{◌≡◌, ◌<◌, ◌^◌, nat_lt, length, Some, None, IfOk, if◌then◌else◌};
ghost use Rattle.build_plan.specs.Plan.{IsPlanned};
ghost use Rattle.build_plan.specs.Positions as positions;
ghost use Rattle.build_plan.specs.Tree.{SourceTree, input_of, nodes_of, ordered};

use hs_syntax::header::ImportItem;
use mk_base::memory::NoMemory;
use mk_base::name::ModName;
use mk_base::place::NodeId;
use mod_graph::graph::Graph;
use mod_graph::input::ViewOf;
use std::alloc::Global;

/// The place of a node, where it is before this one.
fn before_place(node: NodeId, place: u32) -> Option<usize>
    ensures { result ≡ (if nat_lt node.0 place then Some node.0 else None) }
{
    if node.0 < place {
        Some(node.0 as usize)
    } else {
        None
    }
}

/// The place of what the node at a place sees of a module that it imports, where that is a node before it.
fn seen_place(
    alloc: Global,
    graph: &Graph,
    place: u32,
    import: &ImportItem,
) -> Result<Option<usize>, NoMemory>
    requires few { length graph.now.order < 2 ^ 32 }
    requires place { place < length graph.now.order }
    ensures { IfOk result (λ p. (t : SourceTree) → IsPlanned t graph.now → p ≡ positions.seen_place (input_of t) (nodes_of (ordered t)) place import.now.module.text) }
{
    let name = ModName {
        text: import.module.text.copy(alloc)?,
    };
    match graph.view(NodeId(place), &name) {
        Some(ViewOf::Tree(seen)) => Ok(before_place(seen, place)),
        Some(ViewOf::Package(_)) => Ok(None),
        Some(ViewOf::Prim) => Ok(None),
        None => Ok(None),
    }
}

/// The places of what the node at a place sees of the modules that it imports, of those that are nodes before it.
pub fn seen_places(
    alloc: Global,
    graph: &Graph,
    place: u32,
    imports: &[ImportItem],
) -> Result<Vec<usize>, NoMemory>
    requires few { length graph.now.order < 2 ^ 32 }
    requires place { place < length graph.now.order }
    ensures { IfOk result (λ ps. (t : SourceTree) → IsPlanned t graph.now → ps.items ≡ positions.import_places (input_of t) (nodes_of (ordered t)) place imports.now) }
{
    let mut places = Vec::new(alloc);
    for import in imports {
        if let Some(seen) = seen_place(alloc, graph, place, import)? {
            places.push(seen)?;
        }
    }
    Ok(places)
}
