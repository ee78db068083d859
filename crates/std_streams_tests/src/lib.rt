//! Tests of streams that fail, are interrupted, or take nothing.
#![tactic(auto)]

#[cfg(test)]
mod streams;
