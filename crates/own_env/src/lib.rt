//! An environment with the face of the module itself behind it.
#![tactic(auto)]

pub mod own_env;
pub mod own_face;
