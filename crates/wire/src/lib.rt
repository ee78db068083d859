//! Numbers and texts as bytes, in their one spelling, read and written.
#![tactic(auto)]

pub mod get;
pub mod put;
