//! The disks of all nodes.

ghost use Rattle.std.specs.Prelude.{◌≡◌, ◌≢◌, ◌⊎◌, ℕ, ◌≤◌, List, Bool, true, false, Err, IfOk, OnOk, OnErr};
ghost use Rattle.cs_base.specs.Faults.{HasRisen};
ghost use Rattle.cs_store.specs.Disk.{IsSettled};

use crate::Store;
use cs_base::NodeId;
use std::alloc::AllocError;
use std::io;
use thiserror::Error;

/// Why a store isn't handed out.
#[derive(Clone, Copy, Debug, PartialEq, Eq, Error)]
pub enum TakeError {
    #[error("the disk failed")]
    Failed,
    /// The store is out, or another process has its folder.
    #[error("the store is in use")]
    Busy,
    /// The folder has entries, but the file that is made last isn't there.
    #[error("the folder is no store")]
    Unformatted,
    #[error("out of memory")]
    NoMemory,
}

impl From<AllocError> for TakeError {
    ghost use Rattle.std.specs.Prelude.{◌≡◌};
    ghost use Rattle.cs_store.specs.declared.stores.TakeError.TheVariants.{NoMemory};

    ghost from_gives = { λ _ e. e ≡ NoMemory };

    fn from(_: AllocError) -> TakeError {
        TakeError::NoMemory
    }
}

// The system had no memory, or else it failed.
impl From<io::Error> for TakeError {
    ghost use Rattle.std.specs.Prelude.{◌≡◌, ◌⊎◌};
    ghost use Rattle.cs_store.specs.declared.stores.TakeError.TheVariants.{Failed, NoMemory};

    ghost from_gives = { λ _ e. (e ≡ Failed) ⊎ (e ≡ NoMemory) };

    fn from(error: io::Error) -> TakeError {
        if error.kind() == io::ErrorKind::OutOfMemory {
            TakeError::NoMemory
        } else {
            TakeError::Failed
        }
    }
}

/// Hands out the store of each node once, until it is back.
pub trait Stores {
    type Store: Store;

    /// What a read of a file of a node gives, by the node and then the file, while its store isn't out.
    ghost holds: { Self → ℕ → ℕ → List ℕ };

    /// How often a call for a node, or of its store, has failed.
    ghost faults: { Self → ℕ → ℕ };

    /// The count of faults that a node's store had when it was handed out.
    ghost taken: { Self → ℕ → ℕ };

    /// The store of a node is out.
    ghost is_out: { Self → ℕ → Bool };

    /// Others than this value may hold the stores, or change what is in them.
    ghost is_shared: { Type 0 };

    /// The store of a node, of which a crash leaves what a read gives. `dir` is the folder of all stores. Each error
    /// but want of memory counts as a fault.
    fn take(&mut self, dir: &str, node: NodeId) -> Result<Self::Store, TakeError>
        ensures seen { IfOk result (λ s. Self.Store.is_honest → (k : ℕ) → (Self.Store.disk s).seen k ≡ holds self.old node k) }
        ensures settled { IfOk result (λ s. Self.Store.is_honest → (k : ℕ) → IsSettled k (Self.Store.disk s)) }
        ensures taken { IfOk result (λ s. taken self.new node ≡ Self.Store.faults s) }
        ensures once { is_out self.old node ≡ true → result ≡ Err TakeError.Busy }
        ensures busy { result ≡ Err TakeError.Busy → (is_out self.old node ≡ true) ⊎ is_shared }
        ensures unformatted { result ≡ Err TakeError.Unformatted → is_shared }
        ensures out { OnOk result (is_out self.new node ≡ true) }
        ensures err { OnErr result (is_out self.new node ≡ is_out self.old node) }
        ensures later { faults self.old node ≤ faults self.new node }
        ensures cause { OnErr result (result ≢ Err TakeError.NoMemory → HasRisen (faults self.old node) (faults self.new node)) }
        ensures no_memory { result ≡ Err TakeError.NoMemory → faults self.new node ≡ faults self.old node }
        ensures others { (n : ℕ) → n ≢ node → (faults self.new n ≡ faults self.old n) × (is_out self.new n ≡ is_out self.old n) × (taken self.new n ≡ taken self.old n) }
        ensures other_files { (n k : ℕ) → n ≢ node → holds self.new n k ≡ holds self.old n k };

    /// Takes the store of a node back. It takes no memory.
    fn back(&mut self, node: NodeId, store: Self::Store)
        ensures holds { Self.Store.is_honest → (k : ℕ) → holds self.new node k ≡ (Self.Store.disk store).seen k }
        ensures home { is_out self.new node ≡ false }
        ensures later { faults self.old node ≤ faults self.new node }
        ensures rose { HasRisen (taken self.old node) (Self.Store.faults store) → HasRisen (faults self.old node) (faults self.new node) }
        ensures stays { (HasRisen (taken self.old node) (Self.Store.faults store) → ⊥) → faults self.new node ≡ faults self.old node }
        ensures others { (n : ℕ) → n ≢ node → (faults self.new n ≡ faults self.old n) × (is_out self.new n ≡ is_out self.old n) × (taken self.new n ≡ taken self.old n) }
        ensures other_files { (n k : ℕ) → n ≢ node → holds self.new n k ≡ holds self.old n k };
}
