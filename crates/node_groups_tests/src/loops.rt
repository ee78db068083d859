//! The loops of small graphs, and graphs with their edges turned, worked out by hand.
use crate::rows::{cut, rows};
use node_groups::loops::loops_of;
use node_groups::turned::{empty_rows, turned};
use numbered_nodes::edges::are_in_range;
use std::alloc::{AllocError, Global};
use std::process::Abort;
use std::test::Fail;

/// The targets of each node, and the loop of each node.
const LOOPS: [(&str, &[usize]); 8] = [
    ("", &[]),
    ("0", &[0]),
    ("12 3 3 -", &[0, 1, 2, 3]),
    ("1 02 1", &[0, 0, 0]),
    ("1 02 3 2", &[0, 0, 2, 2]),
    ("- 0 1 2", &[0, 1, 2, 3]),
    ("1 2 3 0", &[0, 0, 0, 0]),
    ("3 2 10 30", &[0, 1, 1, 0]),
];

// A line is a graph, and behind the bar the graph with its edges turned, in the form of the tables of groups.
const TURNED: &str = "
0|0
- -|- -
12 - -|- 0 0
1 2 0|2 0 1
11 -|- 00
123 23 3 -|- 0 01 012
";

#[test]
fn loops_are_numbered_by_their_least_node(rt: HostRuntime) -> Result<(), Fail> {
    for (targets, loops) in LOOPS {
        let graph = rows(rt.alloc(), targets.as_bytes())?;
        assert!(rt; are_in_range(&graph, graph.len()));
        assert_eq!(rt; loops_of(rt.alloc(), &graph)?.as_slice(), loops);
    }
    Ok(())
}

/// Checks a line of the table of graphs with their edges turned.
fn check_turned(rt: &impl Abort, alloc: Global, line: &[u8]) -> Result<(), AllocError> {
    let (targets, expected) = cut(line);
    let graph = rows(alloc, targets)?;
    assert!(rt; are_in_range(&graph, graph.len()));
    assert!(rt; turned(alloc, &graph)? == rows(alloc, expected)?);
    Ok(())
}

#[test]
fn edges_are_turned(rt: HostRuntime) -> Result<(), Fail> {
    for line in TURNED.as_bytes().split(|byte| *byte == b'\n') {
        check_turned(&rt, rt.alloc(), line)?;
    }
    let none = empty_rows(rt.alloc(), 2)?;
    assert!(rt; none == rows(rt.alloc(), b"- -")?);
    Ok(())
}
