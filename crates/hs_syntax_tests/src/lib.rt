//! Tests of tokens and trees, which use them as their callers do.
#![tactic(auto)]

#[cfg(test)]
mod signs;
#[cfg(test)]
mod tokens;
#[cfg(test)]
mod trees;
