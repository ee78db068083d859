//! The header of a module's source: its pragmas, its `module` line and its imports (Haskell 2010 Report, chapter 5).
#![tactic(auto)]

mod expected;
mod exports;
mod extension;
pub mod header;
pub mod header_err;
mod imports;
mod items;
pub mod law;
pub mod read;
mod stage;
mod subs;
