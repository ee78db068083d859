//! What no clause of `mk_base` says: that calls succeed with ample memory, and tables worked out by hand.
#![tactic(auto)]

#[cfg(test)]
mod path_tests;
#[cfg(test)]
mod tests;
