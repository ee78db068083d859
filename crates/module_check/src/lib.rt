//! One module through its stages.
#![tactic(auto)]

pub mod check;
mod items;
