//! Tests of the groups of bindings.
#![tactic(auto)]

#[cfg(test)]
mod groups;
#[cfg(test)]
mod table;
