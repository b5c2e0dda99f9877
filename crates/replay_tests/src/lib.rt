//! Tests of served runs whose histories are run again, by a cluster.
#![tactic(auto)]

#[cfg(test)]
mod again;
#[cfg(test)]
mod clients;
#[cfg(test)]
mod frames;
#[cfg(test)]
mod numbered;
#[cfg(test)]
mod outside;
#[cfg(test)]
mod parts;
#[cfg(test)]
mod running;
#[cfg(test)]
mod served;
#[cfg(test)]
mod telling;
#[cfg(test)]
mod tests;
