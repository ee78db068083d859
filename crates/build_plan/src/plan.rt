//! The plan of a build.
ghost use Rattle.std.specs.Prelude.{◌≡◌, ◌<◌, ◌≤◌, ◌^◌, ℕ, List as Row, IfOk, Some, length, map, slice_get};
ghost use Rattle.mk_base.specs.declared.name.Node.{Node as NodeOf};
ghost use Rattle.build_plan.specs.Files.{AreDistinct, AreShort};
ghost use Rattle.build_plan.specs.Plan.{AreNodes, IsPlan, IsPlanned};
ghost use Rattle.build_plan.specs.Positions.{import_places, pairs};
ghost use Rattle.build_plan.specs.Tree.{Settings, SourceTree, header_for, imports_of, input_of, nodes_of, ordered, sorted_tree};

use crate::headers::{headers_of, imports_in};
use crate::imports::seen_places;
use crate::places::{place_of, places_of};
use crate::sources::{Source, list_sources, sort_sources};
use mk_base::list::List;
use mk_base::memory::NoMemory;
use mk_base::name::Node;
use mk_io::file::File;
use mod_graph::graph::Graph;
use mod_graph::input::HeaderOf;
use std::alloc::Global;

/// A node of a plan: its source, and the place of its header among those of the plan.
#[derive(Drop)]
pub struct PlannedNode<'a> {
    pub node: Node,
    pub bytes: &'a [u8],
    pub header: usize,
}

/// The plan of a build: its nodes in order, their headers, the graph of their modules, and whether Prelude is imported
/// where a module's pragmas say nothing.
#[derive(Drop)]
pub struct Plan<'a> {
    pub prelude: bool,
    pub nodes: Vec<PlannedNode<'a>>,
    pub headers: List<HeaderOf>,
    pub graph: Graph,
}

/// The nodes of a graph in order, each with its source and the place of its header.
fn nodes_in_order<'a>(
    alloc: Global,
    sources: &[Source<'a>],
    headers: &[HeaderOf],
    graph: &Graph,
) -> Result<Vec<PlannedNode<'a>>, NoMemory>
    requires planned { (t : SourceTree) × IsPlanned t graph.now × (pairs sources.now ≡ t.sources) × (headers.now ≡ map header_for t.sources) }
    ensures { IfOk result (λ ns. (t : SourceTree) → IsPlanned t graph.now → pairs sources.now ≡ t.sources → headers.now ≡ map header_for t.sources → AreNodes t headers.now ns.items) }
{
    let places = places_of(alloc, sources)?;
    let mut nodes = Vec::new(alloc);
    for node in graph.order().as_slice() {
        let Some(at) = place_of(&places, node.boot, &node.module.text) else {
            unreachable!()
        };
        let bytes = sources[at].bytes;
        nodes.push(PlannedNode {
            node: node.copy(alloc)?,
            bytes,
            header: at,
        })?;
    }
    Ok(nodes)
}

/// The plan of the tree of these files; `prelude` says whether Prelude is imported where a module's pragmas say nothing.
pub fn plan_of<'a>(alloc: Global, files: &'a [File], prelude: bool) -> Result<Plan<'a>, NoMemory>
    requires files { AreDistinct files.now }
    requires few { length files.now < 2 ^ 32 }
    requires names { AreShort files.now }
    ensures { IfOk result (λ p. (g : Settings) → length g.unit ≤ 64 → g.prelude ≡ prelude → IsPlan (sorted_tree g files.now) p) }
{
    let mut sources = list_sources(alloc, files)?;
    sort_sources(sources.as_mut_slice());
    let headers = headers_of(alloc, sources.as_slice())?;
    let graph = Graph::build(alloc, &headers, &List::new(alloc), prelude)?;
    let nodes = nodes_in_order(alloc, sources.as_slice(), headers.as_slice(), &graph)?;
    Ok(Plan {
        prelude,
        nodes,
        headers,
        graph,
    })
}

/// The places of what the node at a place sees of the modules that it imports, of those that stand before it.
pub fn imports_at(alloc: Global, plan: &Plan<'_>, place: u32) -> Result<Vec<usize>, NoMemory>
    requires plan { (t : SourceTree) × IsPlan t plan.now }
    requires place { place < length plan.now.nodes.items }
    ensures { IfOk result (λ ps. (t : SourceTree) (q : NodeOf × Row ℕ) → IsPlan t plan.now → slice_get (ordered t) place ≡ Some q
        → ps.items ≡ import_places (input_of t) (nodes_of (ordered t)) place (imports_of t.settings q.0 q.1)) }
{
    let node = &plan.nodes[place as usize];
    let header = &plan.headers.as_slice()[node.header];
    let imports = imports_in(alloc, &header.header, plan.prelude)?;
    seen_places(alloc, &plan.graph, place, imports.as_slice())
}
