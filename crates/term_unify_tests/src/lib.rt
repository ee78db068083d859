//! Tests of unification.
#![tactic(auto)]

#[cfg(test)]
mod limits;
#[cfg(test)]
mod rows;
#[cfg(test)]
mod unify;
