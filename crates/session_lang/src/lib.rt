//! The commands of a build script, read from bytes, each by its one spelling.
#![tactic(auto)]

pub mod command;
mod front;
mod piece;
pub mod script;
mod token;
