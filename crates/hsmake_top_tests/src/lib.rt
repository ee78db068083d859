//! Tests of whole sessions, which are run as the program runs them.
#![tactic(auto)]

#[cfg(test)]
mod rows;
#[cfg(test)]
mod sessions;
#[cfg(test)]
mod tests;
