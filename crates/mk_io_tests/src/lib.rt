//! Tests of sources, sinks and files, which use them as their callers do.
#![tactic(auto)]

#[cfg(test)]
mod memory;
