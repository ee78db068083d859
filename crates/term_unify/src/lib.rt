//! First-order unification of types, with a most general solution kept (Robinson 1965). Terms are the nodes of a graph
//! in which equal ones are joined (Huet 1976); no call walks a shared part twice.
#![tactic(auto)]

mod read;
pub mod terms;
mod walk;
