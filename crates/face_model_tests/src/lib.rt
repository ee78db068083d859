//! That values of every type of `face_model` are told apart and copied, with ample memory.
#![tactic(auto)]

#[cfg(test)]
mod decls;
#[cfg(test)]
mod exports;
#[cfg(test)]
mod faces;
#[cfg(test)]
mod fixities;
#[cfg(test)]
mod insts;
#[cfg(test)]
mod results;
#[cfg(test)]
mod samples;
#[cfg(test)]
mod schemes;
