//! Tests of scripts and of the program's top call, which need only the public side of the crates.
#![tactic(auto)]

#[cfg(test)]
mod mending;
#[cfg(test)]
mod printed_scripts;
#[cfg(test)]
mod running;
#[cfg(test)]
mod scripts;
#[cfg(test)]
mod stopping;
#[cfg(test)]
mod waiting;
