//! Tests of changes and contents, of what is shown of them, and of their bytes, which need only the public side of the crates.
#![tactic(auto)]

#[cfg(test)]
mod asked;
#[cfg(test)]
mod drawn;
#[cfg(test)]
mod faults;
#[cfg(test)]
mod given;
#[cfg(test)]
mod log_entries;
#[cfg(test)]
mod partitions;
#[cfg(test)]
mod worked;
