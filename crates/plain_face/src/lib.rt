//! The plain interface of a module.
#![tactic(auto)]

mod decls;
mod exports;
pub mod interface;
mod place;
mod sections;
mod table;
