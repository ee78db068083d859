//! What nodes see of modules.
ghost use Rattle.std.specs.Prelude.{◌<◌, ◌^◌, IfSome, length};

use crate::shown::{graph_of, put_node};
use crate::table::{cut_at, headers, node, packages, text};
use mk_base::list::List;
use mk_base::memory::NoMemory;
use mk_base::name::{ModName, Node};
use mk_base::place::NodeId;
use mod_graph::graph::Graph;
use mod_graph::input::ViewOf;
use std::alloc::Global;
use std::process::Abort;
use std::test::Fail;

// A line is the nodes of a tree, its packages' modules, a node, a module, and what the node sees of the module: a node,
// the place of a package's module, Prim, or nothing.
const VIEWS: &str = "
M:N M!: N:~M P:N||N|M|M!
M:N M!: N:~M P:N||P|M|M
M:N M!: N:~M P:N||M|N|N
M:N M!: N:~M P:N||N|P|P
M:N M!: N:~M P:N||P|Prim|Prim
M:N M!: N:~M P:N||P|Q|
M:N N:~M||N|M|
M:N M!: N:~M||M|M|M!
M:||M|M|
A:X B:X X:|u/X:|A|X|X
A:X|u/W: u/X: v/X:|A|X|1
A:Y|u/X:|A|Y|
M!: N:~M||N|M|M!
A:B B:C C:A D:||A|C|C
";

/// The place of a node in the order.
fn id_of(graph: &Graph, node: &Node) -> Option<NodeId>
    requires { length graph.now.order < 2 ^ 32 }
    ensures { IfSome result (λ id. id.0 < length graph.now.order) }
{
    for place in 0..graph.order().len() {
        if graph.order().as_slice()[place] == *node {
            return Some(NodeId(place as u32));
        }
    }
    None
}

/// What a node sees of a module, in the form of the table.
fn seen(alloc: Global, graph: &Graph, from: &[u8], module: &[u8]) -> Result<List<u8>, NoMemory>
    requires { length graph.now.order < 2 ^ 32 }
{
    let mut out = List::new(alloc);
    let name = ModName {
        text: text(alloc, module)?,
    };
    let Some(from) = id_of(graph, &node(alloc, from)?) else {
        return Ok(out);
    };
    match graph.view(from, &name) {
        Some(ViewOf::Tree(id)) => {
            if let Some(node) = graph.order().get(id.0 as usize) {
                put_node(&mut out, node)?;
            }
        }
        Some(ViewOf::Package(at)) => out.push_number(u64::from(at))?,
        Some(ViewOf::Prim) => out.extend(b"Prim")?,
        None => {}
    }
    Ok(out)
}

/// Checks what a node sees of a module.
fn check_seen(
    rt: &impl Abort,
    alloc: Global,
    graph: &Graph,
    from: &[u8],
    module: &[u8],
    expected: &[u8],
) -> Result<(), NoMemory>
    requires { length graph.now.order < 2 ^ 32 }
{
    let found = seen(alloc, graph, from, module)?;
    assert_eq!(rt; found.as_slice(), expected);
    assert!(rt; graph.package(9).is_none());
    Ok(())
}

/// Checks a line of the table of views.
fn check_view(rt: &impl Abort, alloc: Global, row: &[u8]) -> Result<(), NoMemory> {
    let (nodes, rest) = cut_at(row, b'|');
    let (modules, rest) = cut_at(rest, b'|');
    let (from, rest) = cut_at(rest, b'|');
    let (module, expected) = cut_at(rest, b'|');
    let headers = headers(alloc, nodes)?;
    let packages = packages(alloc, modules)?;
    let graph = graph_of(rt, alloc, &headers, &packages, false)?;
    check_seen(rt, alloc, &graph, from, module, expected)
}

#[test]
fn views_are_of_the_tree_then_packages_then_prim(rt: HostRuntime) -> Result<(), Fail> {
    for row in VIEWS.as_bytes().split(|byte| *byte == b'\n') {
        if !row.is_empty() {
            check_view(&rt, rt.alloc(), row)?;
        }
    }
    Ok(())
}
