//! Builds of the part of the language that is built so far.
#![tactic(auto)]

pub mod build;
mod done;
mod node;
