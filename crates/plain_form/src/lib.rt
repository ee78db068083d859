//! The form of the sources that are built so far.
#![tactic(auto)]

pub mod form;
mod state;
mod step;
mod token;
mod word;
