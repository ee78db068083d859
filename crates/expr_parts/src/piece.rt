//! What is read on the way to a tree. Large parts are boxed, so that the calls that nest stay small.
use hs_syntax::expr_tree::{ArmTree, ChainTree, ClosedTree, DeclTree, ExprTree, OpenTree};
use hs_syntax::pattern_tree::PatTree;
use sqlite_items::{Boxed, Items};

/// A chain, and whether its last operand is open.
#[derive(Drop)]
pub struct Chain {
    pub tree: Boxed<ChainTree>,
    pub is_open: bool,
}

/// `open | closed`: an operand of a chain.
#[derive(Drop)]
pub enum Operand {
    Open(OpenTree),
    Closed(Boxed<ClosedTree>),
}

/// `pattern <- exp | let block(decl) | exp`: a qualifier, or a statement.
#[derive(Drop)]
pub enum Part {
    Bind(Boxed<PatTree>, Boxed<ExprTree>),
    Let(Items<DeclTree>),
    Test(Boxed<ExprTree>),
}

/// What stands behind a left side, or behind the pattern of an alternative.
#[derive(Drop)]
pub enum Body {
    /// `s exp [where block(decl)]`
    Plain(Boxed<ExprTree>, Option<Items<DeclTree>>),
    /// `{| guard {, guard} s exp}+ [where block(decl)]`
    Guarded(Items<ArmTree>, Option<Items<DeclTree>>),
}
