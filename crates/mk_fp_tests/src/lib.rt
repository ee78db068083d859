//! What no clause of `mk_fp` says: the vectors of RFC 1321, and that calls succeed with ample memory.
#![tactic(auto)]

#[cfg(test)]
mod tests;
