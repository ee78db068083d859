//! What a graph of modules is made of, and what a node sees of a module.
use hs_syntax::header::Header;
use mk_base::diag::Diag;
use mk_base::name::Node;
use mk_base::place::NodeId;

/// A node of the tree: the size of its source in bytes, and its header, or the diagnostic that stands in place of one.
#[derive(Debug, Drop)]
pub struct HeaderOf {
    pub node: Node,
    pub size: u64,
    pub header: Result<Header, Diag>,
}

/// What a node sees of a module: a node of the tree by its place in the order, a package's module by its place in the
/// list of them, or Prim.
#[derive(Debug, Drop)]
pub enum ViewOf {
    Tree(NodeId),
    Package(u32),
    Prim,
}
