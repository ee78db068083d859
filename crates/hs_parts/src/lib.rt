//! Names, types, contexts, patterns, signatures and fixities: what the grammar has without expressions and left sides.
#![tactic(auto)]

pub mod contexts;
pub mod names;
pub mod parse;
pub mod patterns;
pub mod sigs;
pub mod types;
