//! Tests of how deep tokens nest, which ask as callers do.
#![tactic(auto)]

#[cfg(test)]
mod nesting;
