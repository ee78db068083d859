//! Tests of the commands of a script, which are read as their callers read them.
#![tactic(auto)]

#[cfg(test)]
mod commands;
