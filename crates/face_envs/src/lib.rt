//! Environments over faces.
#![tactic(auto)]

pub mod plain;
pub mod seen;
pub mod shared;
pub mod sight;
pub mod tables;
