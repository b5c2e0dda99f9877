//! Nodes are loaded.

ghost use Rattle.std.specs.Prelude.{◌≡◌, ◌≢◌, ◌⊎◌, ℕ, ◌≤◌, true, false, length, vec_len, vec_capacity, Err, IfOk, OnOk, OnErr};
ghost use Rattle.cs_base.specs.Faults.{HasRisen};
ghost use Rattle.cs_store.specs.Disk.{IsSettled};
ghost use Rattle.replica.specs.declared.error.LoadError.TheVariants as load_error;
ghost use Rattle.served_stores.specs.Loading.{AreTakenFrom, IsFirstLost, IsTaken, keeper};
ghost use Rattle.served_stores.specs.Shown.{IsSameAt, shown};
ghost use Rattle.served_stores.specs.declared.fault.LoadFault.TheVariants as load_fault;

use crate::fault::LoadFault;
use crate::releasing::release_nodes;
use cs_base::NodeId;
use cs_store::{Stores, TakeError};
use event_copies::copy_setting;
use node_core::Node;
use peer_messages::Setting;
use replica::{LoadError, Replica};
use std::alloc::Global;

/// The store of a node.
fn take_store<D: Stores>(stores: &mut D, dir: &str, me: NodeId) -> Result<D::Store, LoadFault>
    ensures seen { IfOk result (λ s. D.Store.is_honest → (k : ℕ) → (D.Store.disk s).seen k ≡ D.holds stores.old me k) }
    ensures settled { IfOk result (λ s. D.Store.is_honest → (k : ℕ) → IsSettled k (D.Store.disk s)) }
    ensures taken { IfOk result (λ s. D.taken stores.new me ≡ D.Store.faults s) }
    ensures out { OnOk result ((D.is_out stores.old me ≡ false) × (D.is_out stores.new me ≡ true)) }
    ensures home { OnErr result (D.is_out stores.new me ≡ D.is_out stores.old me) }
    ensures failed { (n : ℕ) → result ≡ Err (load_fault.Failed n) → (n ≡ me) × HasRisen (D.faults stores.old me) (D.faults stores.new me) }
    ensures no_memory { result ≡ Err load_fault.NoMemory → D.faults stores.new me ≡ D.faults stores.old me }
    ensures undamaged { (n f p : ℕ) → result ≡ Err (load_fault.Damaged n f p) → ⊥ }
    ensures later { D.faults stores.old me ≤ D.faults stores.new me }
    ensures others { (n : ℕ) → n ≢ me → IsSameAt n (shown D.holds D.faults D.taken D.is_out stores.old) (shown D.holds D.faults D.taken D.is_out stores.new) }
{
    match stores.take(dir, me) {
        Ok(store) => Ok(store),
        Err(TakeError::NoMemory) => Err(LoadFault::NoMemory),
        Err(_) => Err(LoadFault::Failed(me)),
    }
}

/// Gives back the store of a node that was not loaded, and tells why it was not.
fn give_back<D: Stores>(stores: &mut D, me: NodeId, error: LoadError<D::Store>) -> LoadFault
where
    D::Store: Drop,
    ensures home { D.is_out stores.new me ≡ false }
    ensures failed { (n : ℕ) → result ≡ load_fault.Failed n → (n ≡ me) × ((s : _) × (error ≡ load_error.Failed s) × (HasRisen (D.taken stores.old me) (D.Store.faults s) → HasRisen (D.faults stores.old me) (D.faults stores.new me))) }
    ensures damaged { (n f p : ℕ) → result ≡ load_fault.Damaged n f p → (n ≡ me) × ((s : _) × (error ≡ load_error.Damaged s f p)) }
    ensures later { D.faults stores.old me ≤ D.faults stores.new me }
    ensures others { (n : ℕ) → n ≢ me → IsSameAt n (shown D.holds D.faults D.taken D.is_out stores.old) (shown D.holds D.faults D.taken D.is_out stores.new) }
{
    let (store, fault) = match error {
        LoadError::Failed(store) => (store, LoadFault::Failed(me)),
        LoadError::Damaged(store, file, at) => (store, LoadFault::Damaged(me, file, at)),
        LoadError::NoMemory(store) => (store, LoadFault::NoMemory),
    };
    stores.back(me, store);
    fault
}

/// A node that is loaded from its store. After an error its store is back.
fn load_node<R: Replica, D: Stores<Store = R::Disk>>(
    alloc: Global,
    stores: &mut D,
    dir: &str,
    me: NodeId,
    setting: &Setting,
) -> Result<Node<R>, LoadFault>
    ensures taken { IfOk result (λ node. IsTaken (keeper R.Disk.is_honest R.stands_for R.durable R.is_whole R.disk R.Disk.disk R.Disk.faults) setting.now me (shown D.holds D.faults D.taken D.is_out stores.old) (shown D.holds D.faults D.taken D.is_out stores.new) node.core node.replica) }
    ensures home { OnErr result (D.is_out stores.new me ≡ D.is_out stores.old me) }
    ensures failed { (n : ℕ) → result ≡ Err (load_fault.Failed n) → (n ≡ me) × HasRisen (D.faults stores.old me) (D.faults stores.new me) }
    ensures damaged { (n f p : ℕ) → result ≡ Err (load_fault.Damaged n f p) → (n ≡ me) × (R.Disk.is_honest → R.is_damaged (D.holds stores.old me) f p) }
    ensures later { D.faults stores.old me ≤ D.faults stores.new me }
    ensures others { (n : ℕ) → n ≢ me → IsSameAt n (shown D.holds D.faults D.taken D.is_out stores.old) (shown D.holds D.faults D.taken D.is_out stores.new) }
{
    let setting = copy_setting(alloc, setting)?;
    let store = take_store(stores, dir, me)?;
    match Node::load(alloc, me, setting, store) {
        Ok(node) => Ok(node),
        Err(error) => Err(give_back(stores, me, error)),
    }
}

/// The nodes of the ring by rising number, each loaded from its store of the folder `dir`. After an error each store that was taken
/// is back.
pub fn load_nodes<R: Replica, D: Stores<Store = R::Disk>>(
    alloc: Global,
    stores: &mut D,
    dir: &str,
    setting: &Setting,
) -> Result<Vec<Node<R>>, LoadFault>
    ensures count { IfOk result (λ nodes. vec_len nodes ≡ length setting.now.ring) }
    ensures few { IfOk result (λ nodes. vec_len nodes ≤ 7) }
    ensures taken { IfOk result (λ nodes. AreTakenFrom (keeper R.Disk.is_honest R.stands_for R.durable R.is_whole R.disk R.Disk.disk R.Disk.faults) setting.now 0 nodes.items (shown D.holds D.faults D.taken D.is_out stores.old) (shown D.holds D.faults D.taken D.is_out stores.new)) }
    ensures others { (n : ℕ) → length setting.now.ring ≤ n → IsSameAt n (shown D.holds D.faults D.taken D.is_out stores.old) (shown D.holds D.faults D.taken D.is_out stores.new) }
    ensures later { (n : ℕ) → D.faults stores.old n ≤ D.faults stores.new n }
    ensures home { OnErr result ((n : ℕ) → D.is_out stores.new n ≡ D.is_out stores.old n) }
    ensures failed { (n : ℕ) → result ≡ Err (load_fault.Failed n) → HasRisen (D.faults stores.old n) (D.faults stores.new n) }
    ensures damaged { (n f p : ℕ) → result ≡ Err (load_fault.Damaged n f p) → R.Disk.is_honest → R.is_damaged (D.holds stores.old n) f p }
    ensures first { (n f p : ℕ) → (result ≡ Err (load_fault.Failed n)) ⊎ (result ≡ Err (load_fault.Damaged n f p)) → IsFirstLost (keeper R.Disk.is_honest R.stands_for R.durable R.is_whole R.disk R.Disk.disk R.Disk.faults) (length setting.now.ring) n (shown D.holds D.faults D.taken D.is_out stores.old) (shown D.holds D.faults D.taken D.is_out stores.new) }
{
    let mut nodes = Vec::with_capacity(alloc, usize::from(setting.ring.nodes()))?;
    for number in 0..setting.ring.nodes() {
        let me = NodeId::new(number).unwrap();
        match load_node(alloc, stores, dir, me, setting) {
            Ok(node) => nodes.push_reserved(node),
            Err(fault) => {
                release_nodes(stores, nodes);
                return Err(fault);
            }
        }
    }
    Ok(nodes)
}
