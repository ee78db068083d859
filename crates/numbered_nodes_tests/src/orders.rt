//! What no clause says: that calls succeed with ample memory, and that the definitions are meant so.
ghost use Rattle.std.specs.Prelude.{length};
ghost use Rattle.numbered_nodes.specs.Edges.{lists, InRange};

use crate::graphs::graph_of;
use numbered_nodes::edges::are_in_range;
use numbered_nodes::loops::loops_of;
use numbered_nodes::order::order_of;
use numbered_nodes::steps::step_rows;
use std::alloc::{AllocError, Global};
use std::test::Fail;

/// The targets of each node, and the order of the nodes: chains both ways, a diamond, nodes that are ready last first,
/// self edges, loops, two loops that share a node, and nodes behind a loop.
const ORDERS: [(&[&[usize]], &[usize]); 10] = [
    (&[], &[]),
    (&[&[1], &[2], &[3], &[]], &[3, 2, 1, 0]),
    (&[&[], &[0], &[1], &[2]], &[0, 1, 2, 3]),
    (&[&[1, 2], &[3], &[3], &[]], &[3, 1, 2, 0]),
    (&[&[0], &[0]], &[0, 1]),
    (&[&[1], &[0], &[0]], &[0, 1, 2]),
    (&[&[1], &[0, 2], &[1]], &[0, 1, 2]),
    (&[&[2], &[], &[0], &[1]], &[1, 3, 0, 2]),
    (&[&[1], &[2], &[1], &[]], &[3, 0, 1, 2]),
    (&[&[3], &[0], &[], &[2]], &[2, 3, 0, 1]),
];

fn order_over(alloc: Global, graph: &[Vec<usize>]) -> Result<Vec<usize>, AllocError>
    requires { InRange (lists graph.now) (length graph.now) }
{
    let loops = loops_of(alloc, graph)?;
    let needs = step_rows(alloc, graph, &loops)?;
    let order = order_of(alloc, &needs)?;
    Ok(order)
}

#[test]
fn nodes_come_behind_their_needs(rt: HostRuntime) -> Result<(), Fail> {
    for (rows, order) in ORDERS {
        let graph = graph_of(rt.alloc(), rows)?;
        assert!(rt; are_in_range(&graph, graph.len()));
        assert_eq!(rt; order_over(rt.alloc(), &graph)?.as_slice(), order);
    }
    Ok(())
}

#[test]
fn a_step_into_another_loop_leads_to_all_of_it(rt: HostRuntime) -> Result<(), Fail> {
    let rows: [&[usize]; 4] = [&[1], &[], &[], &[2]];
    let graph = graph_of(rt.alloc(), &rows)?;
    let loops = [0, 1, 1, 3];
    assert!(rt; are_in_range(&graph, 4) && graph.len() == 4);
    let needs = step_rows(rt.alloc(), &graph, &loops)?;
    assert!(rt; needs[0].contains(1) && needs[0].contains(2) && !needs[0].contains(3));
    assert!(rt; needs[3].contains(1) && !needs[1].contains(2) && !needs[2].contains(2));
    Ok(())
}
