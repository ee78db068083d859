//! Whole graphs, worked out by hand.
use crate::shown::check_shown;
use crate::table::{cut_at, headers, packages};
use mk_base::memory::NoMemory;
use std::alloc::Global;
use std::process::Abort;
use std::test::Fail;

// A line is the nodes of a tree, its packages' modules, and the nodes in their order, with bars between. A node is its
// module, `!` for a boot node, a colon, and what it imports with commas between, `~` before an import with SOURCE; the
// n-th import of a node stands in line n + 1. A package's module is its unit, a slash, its module, `*` where it is
// damaged and `?` where it dangles, a colon, and the modules that it reaches. In the order each node has the number of
// its loop behind a slash, behind a colon what it needs, then ` +` and the place of each package module in its
// environment, and ` e`, the number and the line of each diagnostic.
const GRAPHS: &str = "
||
A:||A/0:
B:A A:||A/0: B/1:A
D:B,C C:A B:A A:||A/0: B/1:A C/2:A D/3:A,B,C
A:B B:A C:A||A/0:B e11@2 B/0:A e11@2 C/2:A,B
A:A B:||A/0: e11@2 B/1:
B:Z Z: A:||A/0: Z/2: B/1:Z
A:B B:A,C C:B||A/0:B,C e11@2 B/0:A,C e11@2 C/0:A,B e11@2
M:N M!: N:~M P:N||M!/0: N/0:M! M/0:M!,N P/3:M!,N,M
M:N M!: N:~M Q:M||M!/0: N/0:M! M/0:M!,N Q/3:M!,N,M
M!: N:~M||M!/0: e10@1 N/1:M!
M!: N:M||M!/0: e10@1 N/1: e10@2
M:~M M!:||M!/0: M/0:M! e11@2
M:~M||M/0: e12@2
M: M!:M||M!/0:M e11@2 M/0:M! e11@1
M:N M!:N N:||N/2: M!/0:N M/0:N,M!
A:X||A/0: e10@2
A:Prim,~Prim||A/0: e12@3
A:X|u/X:|A/0: +0
A:~X|u/X:|A/0: +0 e12@2
A:X X:|u/X:|X/1: A/0:X
A:X|u/X:Y u/Y: v/Y:|A/0: +0 +1
A:X|u/X:Y v/Y: w/Y:|A/0: +0 +1
A:X B:A|u/X*:|A/0: +0 e14@2 B/1:A +0
A:X|u/X:Y u/Y?:|A/0: +0 +1 e15@2
A:X|u/W?: u/X:Y,W u/Y*:|A/0: +0 +1 +2 e14@2
A:X,Y|u/X:Y u/Y:X|A/0: +0 +1
A:B B:C C:X|u/X:|C/2: +0 B/1:C +0 A/0:C,B +0
A: A.B:A AB:A.B||A/0: A.B/1:A AB/2:A,A.B
B:C C:B,D D:E E:D||B/0:C,D,E e11@2 C/0:B,D,E e11@2 D/2:E e11@2 E/2:D e11@2
";

/// Checks a line of the table of graphs.
fn check_graph(rt: &impl Abort, alloc: Global, row: &[u8]) -> Result<(), NoMemory> {
    let (nodes, rest) = cut_at(row, b'|');
    let (modules, expected) = cut_at(rest, b'|');
    let headers = headers(alloc, nodes)?;
    let packages = packages(alloc, modules)?;
    check_shown(rt, alloc, &headers, &packages, false, expected)
}

#[test]
fn graphs_have_order_loops_needs_and_diagnostics(rt: HostRuntime) -> Result<(), Fail> {
    for row in GRAPHS.as_bytes().split(|byte| *byte == b'\n') {
        if !row.is_empty() {
            check_graph(&rt, rt.alloc(), row)?;
        }
    }
    Ok(())
}
