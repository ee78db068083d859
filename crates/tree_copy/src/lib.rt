//! Copies of the trees of a module, tree by tree.
#![tactic(auto)]

pub mod constructors;
pub mod kinds;
pub mod names;
pub mod patterns;
pub mod signatures;
pub mod types;
