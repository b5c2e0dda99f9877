//! The disks of all nodes, in folders.

ghost use Rattle.std.specs.Prelude.{◌≡◌, ◌≢◌, [], true, Err};

use crate::{FileStore, StoreFile};
use cs_base::NodeId;
use cs_store::{Lent, Stores, TakeError};
use std::rt::Files;

/// A folder for each node, by its number, in the folder of all.
#[derive(Drop)]
pub struct DirStores<R: Files + AllocGlobal + Clone + Drop> {
    rt: R,
    nodes: [Lent; 7],
    is_out: [bool; 7],
}

impl<R: Files + AllocGlobal + Clone + Drop> DirStores<R> {
    ghost use Rattle.std.specs.Prelude.{ℕ, ◌<◌, false, slice_index_or};
    ghost use Rattle.cs_store.specs.Lent.{lent_at};

    pub fn new(rt: R) -> DirStores<R>
        ensures faults { (n : ℕ) → (lent_at result.nodes n).faults ≡ 0 }
        ensures home { (n : ℕ) → n < 7 → slice_index_or result.is_out n true ≡ false }
    {
        DirStores {
            rt,
            nodes: [Lent::new(); 7],
            is_out: [false; 7],
        }
    }

    // Opens the folder of a node.
    fn open(&self, dir: &str, node: NodeId) -> Result<FileStore<R>, TakeError>
    where
        R::File: StoreFile,
        ensures { slice_index_or self.now.is_out node true ≡ true → result ≡ Err TakeError.Busy }
    {
        if self.is_out[usize::from(node.number())] {
            return Err(TakeError::Busy);
        }
        let path = format!(in self.rt.alloc(); "{dir}/{}", node.number())?;
        FileStore::open(self.rt.clone()?, path.as_str())
    }
}

impl<R: Files + AllocGlobal + Clone + Drop> Stores for DirStores<R>
where
    R::File: StoreFile,
{
    ghost use Rattle.std.specs.Prelude.{slice_index_or, true};
    ghost use Rattle.cs_store.specs.Lent.{lent_at};

    type Store = FileStore<R>;

    ghost holds = { λ _ _ _. [] };

    ghost faults = { λ s n. (lent_at s.nodes n).faults };

    ghost taken = { λ s n. (lent_at s.nodes n).taken };

    ghost is_out = { λ s n. slice_index_or s.is_out n true };

    ghost is_shared = { Unit {0} };

    fn take(&mut self, dir: &str, node: NodeId) -> Result<FileStore<R>, TakeError> {
        let n = usize::from(node.number());
        let answer = self.open(dir, node);
        let lent = &mut self.nodes[n];
        match answer {
            Ok(store) => {
                lent.taken = store.faults();
                self.is_out[n] = true;
                Ok(store)
            }
            Err(error) => {
                if error != TakeError::NoMemory {
                    lent.faults.raise();
                }
                Err(error)
            }
        }
    }

    fn back(&mut self, node: NodeId, store: FileStore<R>) {
        let n = usize::from(node.number());
        let lent = &mut self.nodes[n];
        lent.back(store.faults());
        self.is_out[n] = false;
    }
}
