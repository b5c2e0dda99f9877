//! Tests of coordinators, of hints, and of what they go by, which need only the public side of the crates.
#![tactic(auto)]

#[cfg(test)]
mod given;
#[cfg(test)]
mod hints;
#[cfg(test)]
mod talks;
#[cfg(test)]
mod told;
