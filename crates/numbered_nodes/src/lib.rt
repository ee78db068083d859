//! Nodes with the numbers 0, 1, ..: sets of them, what they reach and need over edges, their loops, and their order.
#![tactic(auto)]

pub mod edges;
pub mod finish;
pub mod loops;
pub mod needs;
pub mod order;
pub mod search;
pub mod sets;
pub mod steps;
mod waiting;
mod word;
