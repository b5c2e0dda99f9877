//! The disks of all nodes, in memory.

ghost use Rattle.std.specs.Prelude.{◌≡◌, ℕ, ◌≤◌, ◌<◌, IfOk, vec_len, false};
ghost use Rattle.cs_store.specs.Images.{formatted_bytes};

use crate::format::format_stores;
use crate::lent::Lent;
use crate::{MemStore, Outcome, Stores, TakeError};
use cs_base::NodeId;
use std::alloc::{AllocError, Global};

/// A formatted store in memory for each node. To let calls of a node fail, give back a store that is told so.
#[derive(Drop)]
pub struct MemStores {
    stores: Vec<Option<MemStore>>,
    nodes: [Lent; 7],
    ghost whole: { vec_len stores ≡ 7 },
}

impl MemStores {
    ghost use Rattle.cs_store.specs.MemStores.{holds_of, faults_of, is_out};

    pub fn formatted(alloc: Global) -> Result<MemStores, AllocError>
        ensures files { IfOk result (λ s. (n k : ℕ) → n < 7 → holds_of s n k ≡ formatted_bytes k) }
        ensures home { IfOk result (λ s. (n : ℕ) → n < 7 → is_out s n ≡ false) }
        ensures faults { IfOk result (λ s. (n : ℕ) → faults_of s n ≡ 0) }
    {
        Ok(MemStores {
            stores: format_stores(alloc)?,
            nodes: [Lent::new(); 7],
        })
    }
}

impl Stores for MemStores {
    ghost use Rattle.cs_store.specs.MemStores.{holds_of, faults_of, taken_of, is_out};

    type Store = MemStore;

    ghost holds = { holds_of };

    ghost faults = { faults_of };

    ghost taken = { taken_of };

    ghost is_out = { is_out };

    ghost is_shared = { ⊥ };

    fn take(&mut self, _dir: &str, node: NodeId) -> Result<MemStore, TakeError> {
        let n = usize::from(node.number());
        let there = self.stores[n].take();
        let lent = &mut self.nodes[n];
        match there {
            Some(mut store) => {
                store.settle(Outcome::Kept);
                lent.taken = store.faults();
                Ok(store)
            }
            None => {
                lent.faults.raise();
                Err(TakeError::Busy)
            }
        }
    }

    fn back(&mut self, node: NodeId, store: MemStore) {
        let n = usize::from(node.number());
        let lent = &mut self.nodes[n];
        lent.back(store.faults());
        self.stores[n] = Some(store);
    }
}
