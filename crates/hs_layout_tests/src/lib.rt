//! Tests of layout, which use it as its callers do.
#![tactic(auto)]

#[cfg(test)]
mod short_sources;
