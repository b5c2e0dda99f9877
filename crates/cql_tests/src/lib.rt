//! Tests of statements as text, of their values and of the schema they make, which need only the public side of the crates.
#![tactic(auto)]

#[cfg(test)]
mod helpers;
#[cfg(test)]
mod parsing;
#[cfg(test)]
mod schemas;
#[cfg(test)]
mod tokens;
#[cfg(test)]
mod values;
