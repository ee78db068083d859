//! How deep the lexemes of a source nest.
#![tactic(auto)]

pub mod nesting;
