//! Formatted stores in memory.

ghost use Rattle.std.specs.Prelude.{◌≡◌, ℕ, ◌<◌, IfOk, None, false, is_none, vec_len, slice_index_or};
ghost use Rattle.cs_store.specs.Images.{formatted_bytes};
ghost use Rattle.cs_store.specs.MemStores.{seen_in};

use crate::MemStore;
use std::alloc::{AllocError, Global};

/// How many nodes a cluster has at most.
const NODES: usize = 7;

pub(crate) fn format_stores(alloc: Global) -> Result<Vec<Option<MemStore>>, AllocError>
    ensures len { IfOk result (λ stores. vec_len stores ≡ 7) }
    ensures files { IfOk result (λ stores. (n k : ℕ) → n < 7 → seen_in (slice_index_or stores.items n None) k ≡ formatted_bytes k) }
    ensures there { IfOk result (λ stores. (n : ℕ) → n < 7 → is_none (slice_index_or stores.items n None) ≡ false) }
{
    let mut stores = Vec::with_capacity(alloc, NODES)?;
    for _ in 0..NODES {
        stores.push(Some(MemStore::formatted(alloc)?))?;
    }
    Ok(stores)
}
