//! Declarations as bytes: read, gone over without building them, and written. Names are places in a table.
#![tactic(auto)]

pub mod decl;
pub mod export;
pub mod fault;
pub mod go_decl;
pub mod going;
pub mod items;
pub mod kind;
pub mod name;
pub mod parts;
pub mod put;
pub mod ty;
