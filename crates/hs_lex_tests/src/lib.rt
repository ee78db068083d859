//! Tests of lexemes, which use them as their callers do.
#![tactic(auto)]

#[cfg(test)]
mod literals;
#[cfg(test)]
mod sources;
