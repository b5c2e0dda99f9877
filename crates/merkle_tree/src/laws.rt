//! What holds of leaves and of their digests.

ghost use Rattle.merkle_tree.specs.Laws.{BytesTellTheParts, EmptyLeavesHaveTheEmptyDigest, EqualContentsHaveEqualDigests, LeavesKeepTheOrder, LeavesRise, LeavesShareOut};

/// Each token of a range is in one of its leaves, and the leaves rise on the way through the range.
pub fn leaves_share_out_a_range()
    ensures each { LeavesShareOut }
    ensures rise { LeavesRise }
{}

/// Replicas that hold the same in a leaf tell the same digest of it, where each adds its partitions in order; of a leaf in which
/// nothing is held, that of no bytes.
pub fn equal_contents_have_equal_digests()
    ensures equal { EqualContentsHaveEqualDigests }
    ensures empty { EmptyLeavesHaveTheEmptyDigest }
    ensures order { LeavesKeepTheOrder }
{}

/// Replicas that hold different things in a leaf hash different bytes.
pub fn bytes_tell_the_parts()
    ensures { BytesTellTheParts }
{}
