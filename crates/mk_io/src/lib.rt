//! What the program reads from and writes to, with counted faults, and forms of it in memory.
#![tactic(auto)]

pub mod file;
pub mod memory;
pub mod outside;
pub mod write;
