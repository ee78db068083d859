//! Tests of the plain interface of a module.
#![tactic(auto)]

#[cfg(test)]
mod interfaces;
