//! The digests of the leaves of a range, by which replicas find what they differ in.
#![tactic(auto)]

mod builder;
mod differing;
mod laws;
mod leaf;
#[cfg(test)]
mod tests;

pub use builder::Builder;
pub use differing::differing_leaves;
pub use laws::{bytes_tell_the_parts, equal_contents_have_equal_digests, leaves_share_out_a_range};
pub use leaf::leaf_of;
