//! Nodes are released.

ghost use Rattle.std.specs.Prelude.{◌≡◌, ◌≢◌, ℕ, ◌<◌, ◌≤◌, IfSome, length, not, vec_len};
ghost use Rattle.std.specs.List.{position};
ghost use Rattle.served_stores.specs.Releasing.{AreBackFrom, IsBackAt};
ghost use Rattle.served_stores.specs.Shown.{IsSameAt, shown};

use cs_base::NodeId;
use cs_store::Stores;
use node_core::Node;
use replica::Replica;

/// Gives back the store of this node. It takes no memory.
pub fn release_node<R: Replica, D: Stores<Store = R::Disk>>(
    stores: &mut D,
    number: NodeId,
    node: Node<R>,
)
    ensures back { IsBackAt R.Disk.is_honest (R.Disk.disk (R.disk node.replica)).seen (R.Disk.faults (R.disk node.replica)) number (shown D.holds D.faults D.taken D.is_out stores.old) (shown D.holds D.faults D.taken D.is_out stores.new) }
    ensures others { (n : ℕ) → n ≢ number → IsSameAt n (shown D.holds D.faults D.taken D.is_out stores.old) (shown D.holds D.faults D.taken D.is_out stores.new) }
{
    stores.back(number, node.release());
}

/// Gives back the store of each node, the first of which is node 0. It takes no memory.
pub fn release_nodes<R: Replica, D: Stores<Store = R::Disk>>(stores: &mut D, nodes: Vec<Node<R>>)
    requires { vec_len nodes ≤ 7 }
    ensures back { AreBackFrom R.Disk.is_honest (λ node. (R.Disk.disk (R.disk node.replica)).seen) (λ node. R.Disk.faults (R.disk node.replica)) 0 nodes.items (shown D.holds D.faults D.taken D.is_out stores.old) (shown D.holds D.faults D.taken D.is_out stores.new) }
    ensures others { (n : ℕ) → vec_len nodes ≤ n → IsSameAt n (shown D.holds D.faults D.taken D.is_out stores.old) (shown D.holds D.faults D.taken D.is_out stores.new) }
{
    let mut number = 0;
    for node in nodes {
        let me = NodeId::new(number).unwrap();
        release_node(stores, me, node);
        number += 1;
    }
}

/// Where the first node stands that runs no more.
fn first_failed<R: Replica>(nodes: &[Node<R>]) -> Option<usize>
    ensures first { result ≡ position (λ node. not node.core.runs) nodes.now }
    ensures within { IfSome result (λ at. at < length nodes.now) }
{
    nodes.iter().position(|node| !node.core.runs())
}

/// The first node that runs no more, where the first of the list is node 0.
pub fn failed_node<R: Replica>(nodes: &[Node<R>]) -> Option<NodeId>
    requires { length nodes.now ≤ 7 }
    ensures { result ≡ position (λ node. not node.core.runs) nodes.now }
{
    match first_failed(nodes) {
        Some(at) => NodeId::new(at as u8),
        None => None,
    }
}
