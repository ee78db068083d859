//! Classes of terms in an arena: equal terms are joined, and ranks fall from a term to its parts.
#![tactic(auto)]

pub mod ceiling;
pub mod find;
pub mod join;
pub mod node;
pub mod press;
pub mod settle;
pub mod solve;
pub mod unify;
pub mod write;
