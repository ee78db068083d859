//! The modules of packages: where their names lead, what they reach, which of these can't be used, and how what single
//! nodes bring in adds up to their environments.
#![tactic(auto)]

pub mod environments;
pub mod modules;
pub mod packages;
mod tables;
