//! Plans of builds: the nodes of a tree in their order, with their sources, their headers and what their graph tells.
#![tactic(auto)]

mod headers;
mod imports;
mod places;
pub mod plan;
mod sources;
