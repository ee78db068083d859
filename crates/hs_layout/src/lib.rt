//! Layout: the braces and semicolons that stand for lines and indentation (Haskell 2010 Report, section 10.3).
#![tactic(auto)]

pub mod braced;
mod frame;
mod frames;
pub mod laws;
mod look;
mod notes;
mod role;
mod rules;
mod stack;
pub mod state;
