//! What the placement of replicas and the ranges of a ring have in common.

ghost use Rattle.token_ring.specs.Placement.{FirstReplicaOwns, RangesShareOut, ReplicasAreNodes, ReplicasByNumber};

/// A token's replicas are different nodes of the ring, as many as the factor says.
pub fn replicas_are_different_nodes()
    ensures { ReplicasAreNodes }
{}

/// The replicas in order are the nodes of the list by rising number, which has as many as the factor says.
pub fn replicas_are_those_by_number()
    ensures { ReplicasByNumber }
{}

/// Each token is in the range of just one node.
pub fn ranges_share_out_the_tokens()
    ensures { RangesShareOut }
{}

/// A token's first replica is the node in whose range it is.
pub fn first_replica_owns_the_token()
    ensures { FirstReplicaOwns }
{}
