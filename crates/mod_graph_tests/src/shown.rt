//! How graphs are built and shown in the form of the tables.
ghost use Rattle.std.specs.Prelude.{◌<◌, ◌^◌, IfOk, length};

use mk_base::diag::Diag;
use mk_base::list::List;
use mk_base::memory::NoMemory;
use mk_base::name::Node;
use mk_base::place::NodeId;
use mod_graph::distinct::are_distinct;
use mod_graph::graph::Graph;
use mod_graph::input::HeaderOf;
use package_graph::modules::PackageModule;
use std::alloc::Global;
use std::process::Abort;

/// Puts a node at the end, in the form of the table.
pub fn put_node(out: &mut List<u8>, node: &Node) -> Result<(), NoMemory> {
    out.extend(node.module.text.as_slice())?;
    if node.boot {
        out.push(b'!')?;
    }
    Ok(())
}

/// Puts what a node needs at the end, with commas between.
fn put_needs(out: &mut List<u8>, graph: &Graph, needs: &[NodeId]) -> Result<(), NoMemory> {
    let mut first = true;
    for need in needs {
        if !first {
            out.push(b',')?;
        }
        first = false;
        if let Some(node) = graph.order().get(need.0 as usize) {
            put_node(out, node)?;
        }
    }
    Ok(())
}

/// Puts diagnostics at the end, by their numbers and lines.
fn put_errors(out: &mut List<u8>, errors: &[Diag]) -> Result<(), NoMemory> {
    for error in errors {
        out.extend(b" e")?;
        out.push_number(u64::from(error.code))?;
        out.push(b'@')?;
        out.push_number(u64::from(error.at.line))?;
    }
    Ok(())
}

/// The node at a place of the order, in the form of the table.
fn put_place(out: &mut List<u8>, graph: &Graph, place: usize) -> Result<(), NoMemory>
    requires place { place < length graph.now.order }
    requires few { length graph.now.order < 2 ^ 32 }
{
    let id = NodeId(place as u32);
    put_node(out, &graph.order().as_slice()[place])?;
    out.push(b'/')?;
    out.push_number(u64::from(graph.loop_of(id)))?;
    out.push(b':')?;
    put_needs(out, graph, graph.needs(id).as_slice())?;
    for at in graph.reached(id).as_slice() {
        out.extend(b" +")?;
        out.push_number(u64::from(*at))?;
    }
    put_errors(out, graph.errors(id).as_slice())
}

/// The nodes in their order, in the form of the table.
pub fn shown(alloc: Global, graph: &Graph) -> Result<List<u8>, NoMemory>
    requires { length graph.now.order < 2 ^ 32 }
{
    let mut out = List::new(alloc);
    for place in 0..graph.order().len() {
        if place > 0 {
            out.push(b' ')?;
        }
        put_place(&mut out, graph, place)?;
    }
    Ok(out)
}

/// The graph of headers that are few and of different nodes.
pub fn graph_of(
    rt: &impl Abort,
    alloc: Global,
    headers: &List<HeaderOf>,
    packages: &List<PackageModule>,
    prelude: bool,
) -> Result<Graph, NoMemory>
    ensures { IfOk result (λ graph. length graph.order < 2 ^ 32) }
{
    let distinct = are_distinct(alloc, headers.as_slice())?;
    assert!(rt; distinct);
    assert!(rt; headers.len() < 5000 && packages.len() < 5000);
    let graph = Graph::build(alloc, headers, packages, prelude)?;
    assert!(rt; graph.order().len() == headers.len());
    Ok(graph)
}

/// Checks how a graph's nodes are shown in their order.
pub fn check_shown(
    rt: &impl Abort,
    alloc: Global,
    headers: &List<HeaderOf>,
    packages: &List<PackageModule>,
    prelude: bool,
    expected: &[u8],
) -> Result<(), NoMemory> {
    let graph = graph_of(rt, alloc, headers, packages, prelude)?;
    let found = shown(alloc, &graph)?;
    assert_eq!(rt; found.as_slice(), expected);
    Ok(())
}
