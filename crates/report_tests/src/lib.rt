//! Reports of small builds, written out by hand.
#![tactic(auto)]

#[cfg(test)]
mod tests;
