//! The graph of modules.
#![tactic(auto)]

pub mod distinct;
pub mod edges;
pub mod entries;
mod errors;
mod found;
pub mod graph;
pub mod input;
pub mod law;
mod lists;
pub mod places;
pub mod prelude;
mod reached;
mod rows;
