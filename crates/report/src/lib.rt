//! The report of a build.
#![tactic(auto)]

mod counts;
mod names;
mod reasons;
pub mod report;
