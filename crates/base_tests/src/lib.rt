//! Tests of the small types, of rings and tokens, and of the outside, which need only the public side of the crates.
#![tactic(auto)]

#[cfg(test)]
mod byte_strings;
#[cfg(test)]
mod gates;
#[cfg(test)]
mod leaf_sets;
#[cfg(test)]
mod levels;
#[cfg(test)]
mod links;
#[cfg(test)]
mod lists;
#[cfg(test)]
mod ranges;
#[cfg(test)]
mod rings;
#[cfg(test)]
mod streams;
#[cfg(test)]
mod texts;
#[cfg(test)]
mod tokens;
