//! Places in sources, and places of nodes.

/// A place in a source.
///
/// Lines and columns count from 1. A column counts characters; a tab leads to the next column of the form 8k + 1.
#[derive(Clone, Copy, Debug, PartialEq, Eq, PartialOrd, Ord, Hash)]
pub struct Pos {
    pub line: u32,
    pub col: u32,
}

/// A node by its place in the build order, counted from 0.
#[derive(Clone, Copy, Debug, PartialEq, Eq, PartialOrd, Ord, Hash)]
pub struct NodeId(pub u32);
