//! Why nodes are not loaded.

use cs_base::NodeId;
use cs_store::FileNo;
use std::alloc::AllocError;

/// Why the nodes of a served run are not loaded: the first that is not had.
#[derive(Clone, Copy, Debug, PartialEq, Eq)]
pub enum LoadFault {
    /// The store of the node is not had, or has failed. The count of the stores for it tells of it.
    Failed(NodeId),
    /// The file, in the store of the node, is not in its format, first at this place.
    Damaged(NodeId, FileNo, u64),
    NoMemory,
}

impl From<AllocError> for LoadFault {
    ghost use Rattle.std.specs.Prelude.{◌≡◌};
    ghost use Rattle.served_stores.specs.declared.fault.LoadFault.TheVariants.{NoMemory};

    ghost from_gives = { λ _ fault. fault ≡ NoMemory };

    fn from(_: AllocError) -> LoadFault {
        LoadFault::NoMemory
    }
}
