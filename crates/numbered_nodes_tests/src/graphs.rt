//! Graphs, from tables of targets.
use std::alloc::{AllocError, Global};

/// The graph with these targets of each node.
pub fn graph_of(alloc: Global, rows: &[&[usize]]) -> Result<Vec<Vec<usize>>, AllocError> {
    let mut graph = Vec::new(alloc);
    for targets in rows {
        graph.push(Vec::from_slice(alloc, targets)?)?;
    }
    Ok(graph)
}
