//! Tests of chronicles in print, which need only the public side of the crates.
#![tactic(auto)]

#[cfg(test)]
mod printing;
