//! What a module offers to the modules that import it, and what a build says of every node.
#![tactic(auto)]

pub mod decl;
pub mod env;
pub mod export;
pub mod face;
pub mod fixity;
pub mod inst;
pub mod result;
pub mod scheme;
