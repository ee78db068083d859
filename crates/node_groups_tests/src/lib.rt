//! Tests of the groups of numbered nodes.
#![tactic(auto)]

#[cfg(test)]
mod groups;
#[cfg(test)]
mod loops;
#[cfg(test)]
mod rows;
