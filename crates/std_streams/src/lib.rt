//! Any reader as a source and any writer as a sink, with counted faults.
#![tactic(auto)]

pub mod streams;
