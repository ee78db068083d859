//! The tokens of a source, and the trees that are read from them.
#![tactic(auto)]

pub mod behind;
pub mod expr_tree;
pub mod header;
pub mod item;
pub mod name_ref;
pub mod parted;
pub mod pattern_tree;
pub mod sign;
pub mod token;
pub mod type_tree;
