//! Expressions, and the blocks of declarations in them (Haskell 2010 Report, chapter 3 and section 4.4), read by descent
//! exactly as the grammar has them; with them types, patterns and how deep lexemes nest.
#![tactic(auto)]

pub mod parse;
pub mod read;
mod side;

pub use hs_nesting::nesting::nesting;
pub use hs_parts::parse::{parse_pattern, parse_type};
pub use parse::parse_expr;
