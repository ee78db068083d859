//! The face of the module `Prim`, which every tree has: its types, classes, instances and values.
#![tactic(auto)]

mod class_decls;
mod decls;
mod exports;
mod insts;
mod methods;
mod put;
mod spelled;
pub mod table;
mod types;
