//! Tests of left sides, which ask as callers do.
//!
//! A row is a source, a semicolon and the left side with which it begins, with how many lexemes stand behind it, or
//! `none`. A tree is written in parentheses, with a word for its alternative first and its parts behind it. A variable is
//! its name, a constructor has a dot before its name, and a qualifier stands before a slash. A tree whose only part is
//! another one is that other one: a pattern without operators, a pattern by itself.
#![tactic(auto)]

#[cfg(test)]
mod deep;
#[cfg(test)]
mod rows;
#[cfg(test)]
mod show_names;
#[cfg(test)]
mod show_patterns;
#[cfg(test)]
mod sides;
