//! Expressions, and the declarations in them: their grammar, how they are read, and that both are the same.
#![tactic(auto)]

pub mod close;
pub mod law;
pub mod look;
pub mod part;
pub mod piece;
pub mod tree;
