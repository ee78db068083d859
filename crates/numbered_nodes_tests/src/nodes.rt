//! What no clause says: that calls succeed with ample memory, and that the definitions are meant so.
use crate::graphs::graph_of;
use numbered_nodes::edges::are_in_range;
use numbered_nodes::loops::loops_of;
use numbered_nodes::search::reach_rows;
use std::test::Fail;

/// The targets of each node, and the loop of each node.
const LOOPS: [(&[&[usize]], &[usize]); 8] = [
    (&[], &[]),
    (&[&[0]], &[0]),
    (&[&[1, 2], &[3], &[3], &[]], &[0, 1, 2, 3]),
    (&[&[1], &[0, 2], &[1]], &[0, 0, 0]),
    (&[&[1], &[0, 2], &[3], &[2]], &[0, 0, 2, 2]),
    (&[&[], &[0], &[1], &[2]], &[0, 1, 2, 3]),
    (&[&[1], &[2], &[3], &[0]], &[0, 0, 0, 0]),
    (&[&[3], &[2], &[1, 0], &[3, 0]], &[0, 1, 1, 0]),
];

#[test]
fn loops_are_numbered_by_their_least_node(rt: HostRuntime) -> Result<(), Fail> {
    for (rows, loops) in LOOPS {
        let graph = graph_of(rt.alloc(), rows)?;
        assert!(rt; are_in_range(&graph, graph.len()));
        assert_eq!(rt; loops_of(rt.alloc(), &graph)?.as_slice(), loops);
    }
    Ok(())
}

#[test]
fn a_node_reaches_itself_over_a_cycle_alone(rt: HostRuntime) -> Result<(), Fail> {
    let rows: [&[usize]; 4] = [&[1, 2], &[2], &[1], &[0]];
    let graph = graph_of(rt.alloc(), &rows)?;
    assert!(rt; are_in_range(&graph, graph.len()) && graph.len() == 4);
    let reached = reach_rows(rt.alloc(), &graph)?;
    assert!(rt; !reached[0].contains(0) && reached[0].contains(1) && reached[0].contains(2));
    assert!(rt; reached[1].contains(1) && !reached[1].contains(0) && !reached[0].contains(3));
    assert!(rt; reached[3].contains(2) && !reached[3].contains(3));
    assert!(rt; !are_in_range(&graph, 2));
    Ok(())
}
