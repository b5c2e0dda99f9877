//! Tests of frames, of their bodies and of paging states, which need only the public side of the crates.
#![tactic(auto)]

#[cfg(test)]
mod frames;
#[cfg(test)]
mod paging_states;
#[cfg(test)]
mod requests;
#[cfg(test)]
mod responses;
#[cfg(test)]
mod rows;
