//! How many bytes and modules a tree may have.
ghost use Rattle.std.specs.Prelude.{◌<◌, ◌≤◌, ◌^◌, length};

use crate::shown::graph_of;
use crate::table::{header, text};
use mk_base::list::List;
use mk_base::memory::NoMemory;
use mk_base::name::{ModName, Node};
use mk_base::place::NodeId;
use mk_base::text::Text;
use mod_graph::graph::Graph;
use mod_graph::input::HeaderOf;
use std::alloc::Global;
use std::process::Abort;
use std::test::Fail;

/// A header of this module, of this size, that imports nothing.
fn sized(alloc: Global, name: Text, size: u64) -> Result<HeaderOf, NoMemory> {
    let header = Ok(header(alloc, name.as_slice(), b"")?);
    let node = Node {
        module: ModName { text: name },
        boot: false,
    };
    Ok(HeaderOf { node, size, header })
}

/// So many modules, `M10000` and on, each of this size.
fn many(alloc: Global, count: u64, size: u64) -> Result<List<HeaderOf>, NoMemory>
    requires { count ≤ 5000 }
{
    let mut all = List::new(alloc);
    for k in 0..count {
        let mut name = List::new(alloc);
        name.push(b'M')?;
        name.push_number(10_000 + k)?;
        all.push(sized(alloc, text(alloc, name.as_slice())?, size)?)?;
    }
    Ok(all)
}

/// How many nodes have a diagnostic, and the number of the last node's first one.
fn told(graph: &Graph) -> (u32, u8)
    requires { length graph.now.order < 2 ^ 32 }
{
    let mut some: u32 = 0;
    let mut last: u8 = 0;
    for place in 0..graph.order().len() {
        last = 0;
        if let Some(error) = graph.errors(NodeId(place as u32)).get(0) {
            some = some.saturating_add(1);
            last = error.code;
        }
    }
    (some, last)
}

/// Checks a tree of so many modules of this size: how many nodes have a diagnostic, and the number of the last one's.
fn check_limit(
    rt: &impl Abort,
    alloc: Global,
    count: u64,
    size: u64,
    expected: (u32, u8),
) -> Result<(), NoMemory>
    requires { count ≤ 5000 }
{
    let none = List::new(alloc);
    let graph = graph_of(rt, alloc, &many(alloc, count, size)?, &none, false)?;
    assert!(rt; graph.order().len() as u64 == count);
    assert!(rt; told(&graph) == expected);
    Ok(())
}

#[test]
fn sources_and_modules_are_limited(rt: HostRuntime) -> Result<(), Fail> {
    let alloc = rt.alloc();
    check_limit(&rt, alloc, 1, 1_048_576, (0, 0))?;
    check_limit(&rt, alloc, 1, 1_048_577, (1, 6))?;
    check_limit(&rt, alloc, 256, 1_048_576, (0, 0))?;
    check_limit(&rt, alloc, 257, 1_048_576, (1, 6))?;
    check_limit(&rt, alloc, 4097, 1, (1, 7))?;
    Ok(())
}
