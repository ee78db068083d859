//! Tests of the scope of a module.
#![tactic(auto)]

#[cfg(test)]
mod modules;
