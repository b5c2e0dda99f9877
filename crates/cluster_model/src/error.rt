//! Why there is no cluster.

ghost use Rattle.std.specs.Prelude.{◌≡◌};
ghost use Rattle.cluster_model.specs.declared.error.ClusterError.TheVariants as cluster_error;

use cs_base::NodeId;
use std::alloc::{AllocError, AllocFailed};

/// Why no cluster begins on some stores.
#[derive(Clone, Copy, Debug, PartialEq, Eq)]
pub enum ClusterError {
    /// The file of this number, in the node's store, is not in its format, first at this place.
    Damaged(NodeId, u16, u64),
    NoMemory,
}

impl From<AllocError> for ClusterError {
    ghost from_gives = { λ _ r. r ≡ cluster_error.NoMemory };

    fn from(_: AllocError) -> ClusterError {
        ClusterError::NoMemory
    }
}

impl<T: Drop> From<AllocFailed<T>> for ClusterError {
    ghost from_gives = { λ _ r. r ≡ cluster_error.NoMemory };

    fn from(_: AllocFailed<T>) -> ClusterError {
        ClusterError::NoMemory
    }
}
