//! Tests of the graph of modules.
#![tactic(auto)]

#[cfg(test)]
mod entries;
#[cfg(test)]
mod faults;
#[cfg(test)]
mod graphs;
#[cfg(test)]
mod limits;
#[cfg(test)]
mod shown;
#[cfg(test)]
mod table;
#[cfg(test)]
mod views;
