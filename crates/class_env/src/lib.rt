//! Constraints over an environment: reducing by instances, what follows from given ones, and defaults of variables.
#![tactic(auto)]

pub mod choice;
pub mod defaults;
pub mod entail;
pub mod entail_laws;
pub mod given;
pub mod names;
pub mod outcome;
pub mod reduce;
pub mod spine;
pub mod supers;
