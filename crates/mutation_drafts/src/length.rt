//! The size of a mutation.

ghost use Rattle.std.specs.Prelude.{◌≡◌, ◌-◌, ◌^◌, ◌∷◌, min, nat_lt, sum_by};
ghost use Rattle.std.specs.Bool.{OnFalse};
ghost use Rattle.mutation_drafts.specs.Counted.{all_length, counted, draft_length, is_long_mutation, most_mutation_bytes, FitsAlways};

use changes::{Draft, DraftMutation};

/// 4 MiB.
const MOST_MUTATION_BYTES: u64 = 4_194_304;

/// The bytes of the first draft and those behind it.
fn counted_from(first: &Draft, drafts: &[Draft]) -> u64
    ensures { result ≡ min (counted (first.now ∷ drafts.now)) (2 ^ 64 - 1) }
{
    let mut last = first;
    let mut longest = first.encoded_length();
    let mut before = 0u64;
    for draft in drafts {
        let length = draft.encoded_length();
        if last.place == draft.place {
            longest = longest.max(length);
        } else {
            before = before.saturating_add(longest);
            longest = length;
            last = draft;
        }
    }
    before.saturating_add(longest)
}

/// The bytes of the changes, those of one place by the longest; what isn't below 2^64 counts as 2^64 - 1.
fn counted_bytes(drafts: &[Draft]) -> u64
    ensures { result ≡ min (counted drafts.now) (2 ^ 64 - 1) }
{
    match drafts {
        [] => 0,
        [first, rest @ ..] => counted_from(first, rest),
    }
}

/// The bytes of all changes; what isn't below 2^64 counts as 2^64 - 1.
fn all_bytes(drafts: &[Draft]) -> u64
    ensures { result ≡ min (sum_by draft_length drafts.now) (2 ^ 64 - 1) }
{
    let mut bytes = 0u64;
    for draft in drafts {
        bytes = bytes.saturating_add(draft.encoded_length());
    }
    bytes
}

/// Whether all changes together have more than 4 MiB with their partition.
fn are_many(mutation: &DraftMutation) -> bool
    ensures { result ≡ nat_lt most_mutation_bytes (all_length mutation.now) }
{
    let length = mutation
        .partition
        .encoded_length()
        .saturating_add(4)
        .saturating_add(all_bytes(mutation.changes.as_slice()));
    MOST_MUTATION_BYTES < length
}

/// Whether they have where those of one place count by the longest.
fn is_counted_long(mutation: &DraftMutation) -> bool
    ensures { result ≡ is_long_mutation mutation.now }
{
    let length = mutation
        .partition
        .encoded_length()
        .saturating_add(4)
        .saturating_add(counted_bytes(mutation.changes.as_slice()));
    length > MOST_MUTATION_BYTES
}

/// Places are compared only where all changes together are too many.
fn is_long_at_last(mutation: &DraftMutation) -> bool
    ensures { result ≡ is_long_mutation mutation.now }
{
    are_many(mutation) && is_counted_long(mutation)
}

/// Whether the mutation of some request may have more than 4 MiB as it is stored: of changes of one place only one will stay,
/// and the longest counts.
pub fn is_long(mutation: &DraftMutation) -> bool
    ensures counted { result ≡ is_long_mutation mutation.now }
    ensures fits { OnFalse result (FitsAlways mutation.now) }
{
    is_long_at_last(mutation)
}
