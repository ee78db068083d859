//! Tests of the numbered nodes.
#![tactic(auto)]

#[cfg(test)]
mod graphs;
#[cfg(test)]
mod nodes;
#[cfg(test)]
mod orders;
#[cfg(test)]
mod sets;
