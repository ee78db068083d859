//! The groups of small graphs, worked out by hand.
use crate::rows::{cut, rows};
use node_groups::groups_of;
use numbered_nodes::edges::are_in_range;
use std::alloc::{AllocError, Global};
use std::process::Abort;
use std::test::Fail;

// A line is a graph, and behind the bar its groups in order. A graph has a word for each node 0, 1, .., whose digits are
// the targets of the node, or `-` where it has none; a group is a word whose digits are its members.
const WITHOUT_CYCLES: &str = "
-|0
- - -|0 1 2
1 2 3 -|3 2 1 0
- 0 1 2|0 1 2 3
12 3 3 -|3 1 2 0
- 0 0 12|0 1 2 3
- 3 3 0|0 3 1 2
123 23 3 -|3 2 1 0
- 0 01 012|0 1 2 3
- 0 0 0 0|0 1 2 3 4
1234 - - - -|1 2 3 4 0
3 - - -|1 2 3 0
2 - - -|1 2 0 3
1 - - -|1 0 2 3
3 2 - -|2 1 3 0
- - 1 0|0 1 2 3
2 3 - -|2 0 3 1
3 3 3 -|3 0 1 2
1 - 3 -|1 0 3 2
- 0 - 2|0 1 2 3
5 4 3 - - -|3 2 4 1 5 0
12 - - 12 03|1 2 0 3 4
7 - - - - - - 6|1 2 3 4 5 6 7 0
3 4 5 6 7 8 - - -|6 3 0 7 4 1 8 5 2
11 -|1 0
1212 33 3 -|3 1 2 0
";

const WITH_CYCLES: &str = "
0|0
0 0 -|0 1 2
01 1|1 0
1 1 2 23|1 0 2 3
1 0|01
1111 00|01
22 2 22|2 0 1
1 0 3 2|01 23
2 3 0 1|02 13
1 2 0|012
12 0 0|012
1 02 13 2|0123
123 023 013 012|0123
1 2 3 4 5 0|012345
5 0 1 2 3 4|012345
1 0 0|01 2
1 0 - 2|01 2 3
1 02 3 2|23 01
1 0 31 2|01 23
1 02 3 20|0123
1 2 0 0|012 3
1 2 0 4 3|012 34
1 2 04 4 3|34 012
4 3 - 1 0|04 13 2
4 3 1 1 0|04 13 2
42 3 - 1 0|13 2 04
1 2 1 -|12 0 3
1 2 3 1 0|123 0 4
1 3 1 2 -|123 0 4
4 2 1 0 -|12 4 0 3
1 02 3 24 5 4|45 23 01
1 0 30 2 52 4|01 23 45
1 0 - - 5 4|01 2 3 45
8 - 6 - 2 - 4 - 0|08 1 246 3 5 7
1 2 0 2 5 4 4|012 3 45 6
1 2 0 5 5 - 34|012 5 3 4 6
";

/// Checks a line of the tables.
fn check_groups(rt: &impl Abort, alloc: Global, line: &[u8]) -> Result<(), AllocError> {
    let (targets, expected) = cut(line);
    let graph = rows(alloc, targets)?;
    assert!(rt; are_in_range(&graph, graph.len()));
    let groups = groups_of(alloc, &graph)?;
    assert!(rt; groups == rows(alloc, expected)?);
    Ok(())
}

#[test]
fn a_graph_without_nodes_has_no_groups(rt: HostRuntime) -> Result<(), Fail> {
    check_groups(&rt, rt.alloc(), b"|")?;
    Ok(())
}

#[test]
fn nodes_stand_behind_their_targets(rt: HostRuntime) -> Result<(), Fail> {
    for line in WITHOUT_CYCLES.as_bytes().split(|byte| *byte == b'\n') {
        check_groups(&rt, rt.alloc(), line)?;
    }
    Ok(())
}

#[test]
fn nodes_of_a_cycle_are_one_group(rt: HostRuntime) -> Result<(), Fail> {
    for line in WITH_CYCLES.as_bytes().split(|byte| *byte == b'\n') {
        check_groups(&rt, rt.alloc(), line)?;
    }
    Ok(())
}
