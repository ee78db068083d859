//! What no clause of `wire` says: that calls succeed with ample memory, against worked spellings.
#![tactic(auto)]

#[cfg(test)]
mod tests;
