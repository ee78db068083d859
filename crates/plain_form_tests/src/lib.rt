//! Tests of the form of the sources that are built so far.
#![tactic(auto)]

#[cfg(test)]
mod forms;
