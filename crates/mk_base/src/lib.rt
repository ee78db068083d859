//! Texts, lists, names and places: the values that every layer of the build speaks of.
#![tactic(auto)]

pub mod char_class;
pub mod diag;
pub mod fingerprint;
pub mod kind;
pub mod list;
pub mod memory;
pub mod name;
pub mod path;
pub mod place;
pub mod plain;
pub mod status;
pub mod steps;
pub mod text;
pub mod ty;
