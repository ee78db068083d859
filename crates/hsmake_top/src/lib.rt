//! The top of the program: a command line, carried out over an input and an output.
#![tactic(auto)]

pub mod run;
mod script;
mod session;
mod turn;
