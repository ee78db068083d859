//! Tests of types, patterns, signatures and fixities, which ask as callers do.
//!
//! A row is a source, a semicolon and the tree that it is, or `none`. A tree is written in parentheses, with a word for
//! its alternative first and its parts behind it. A variable is its name, a constructor, a type or a class has a dot before
//! its name, and a qualifier stands before a slash. A tree whose only part is another one is that other one: a type
//! without an arrow, an atype that is applied to nothing, a pattern without operators, a pattern by itself. Behind the
//! tree of a signature or a fixity stands how many lexemes are left.
#![tactic(auto)]

#[cfg(test)]
mod deep;
#[cfg(test)]
mod fixed;
#[cfg(test)]
mod patterns;
#[cfg(test)]
mod rows;
#[cfg(test)]
mod show_names;
#[cfg(test)]
mod show_patterns;
#[cfg(test)]
mod show_types;
#[cfg(test)]
mod types;
