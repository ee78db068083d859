//! Tests of headers, which use them as their callers do.
#![tactic(auto)]

#[cfg(test)]
mod short_sources;
#[cfg(test)]
mod tokens;
