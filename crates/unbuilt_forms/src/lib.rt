//! The rules by which a form of source isn't built yet.
#![tactic(auto)]

pub mod items;
pub mod told;
