//! Left sides of clauses, over the patterns that they are made of (Haskell 2010 Report, section 4.4.3).
#![tactic(auto)]

pub mod lhs;
pub mod parse;
