//! What a module declares, what its names refer to, and its diagnostics.
#![tactic(auto)]

mod lines;
pub mod scope;
mod table;
