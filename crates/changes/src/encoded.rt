//! The length of changes as they are stored. A length that isn't below 2^64 counts as 2^64 - 1.

ghost use Rattle.std.specs.Prelude.{◌≡◌, ◌-◌, ◌^◌, min};
ghost use Rattle.changes.specs.Lengths.{bound_length as bound_length_of, change_length as change_length_of, changes_length, field_length as field_length_of, held_length, mutation_length, partition_length, place_length as place_length_of, value_length as value_length_of};

use crate::{Bound, Draft, Held, Mutation, Partition, Place};
use cs_base::Bytes;

fn field_length(bytes: &Bytes) -> u64
    ensures { result ≡ min (field_length_of bytes.now) (2 ^ 64 - 1) }
{
    (bytes.as_slice().len() as u64).saturating_add(4)
}

fn bound_length(bound: &Bound) -> u64
    ensures { result ≡ min (bound_length_of bound.now) (2 ^ 64 - 1) }
{
    field_length(&bound.at).saturating_add(1)
}

fn place_length(place: &Place) -> u64
    ensures { result ≡ min (place_length_of place.now) (2 ^ 64 - 1) }
{
    match place {
        Place::Cell(row, _) => field_length(row).saturating_add(1),
        Place::Marker(row) | Place::RowGone(row) => field_length(row),
        Place::RangeGone(from, upto) => bound_length(from).saturating_add(bound_length(upto)),
        Place::PartGone => 0,
    }
}

fn value_length(place: &Place, value: &Option<Bytes>) -> u64
    ensures { result ≡ min (value_length_of place.now value.now) (2 ^ 64 - 1) }
{
    match (place, value) {
        (Place::Cell(_, _), Some(value)) => field_length(value).saturating_add(1),
        (Place::Cell(_, _), None) => 1,
        _ => 0,
    }
}

/// A byte for the kind of place, the timestamp, the submission time and the request beside what varies.
fn change_length(place: &Place, value: &Option<Bytes>) -> u64
    ensures { result ≡ min (change_length_of place.now value.now) (2 ^ 64 - 1) }
{
    place_length(place)
        .saturating_add(value_length(place, value))
        .saturating_add(1 + 8 + 8 + 1 + 8)
}

impl Partition {
    /// Its bytes as it is stored.
    pub fn encoded_length(&self) -> u64
        ensures { result ≡ min (partition_length self.now) (2 ^ 64 - 1) }
    {
        field_length(&self.key).saturating_add(2 + 8)
    }
}

impl Held {
    /// Its bytes as it is stored.
    pub fn encoded_length(&self) -> u64
        ensures { result ≡ min (held_length self.now) (2 ^ 64 - 1) }
    {
        change_length(&self.place, &self.value)
    }
}

impl Draft {
    /// The bytes of the change that any request makes of it.
    pub fn encoded_length(&self) -> u64
        ensures { result ≡ min (change_length_of self.now.place self.now.value) (2 ^ 64 - 1) }
    {
        change_length(&self.place, &self.value)
    }
}

/// The bytes of the changes as they are stored.
pub fn encoded_length(changes: &[Held]) -> u64
    ensures { result ≡ min (changes_length changes.now) (2 ^ 64 - 1) }
{
    let mut length = 4u64;
    for change in changes {
        length = length.saturating_add(change.encoded_length());
    }
    length
}

impl Mutation {
    /// Its bytes as it is stored.
    pub fn encoded_length(&self) -> u64
        ensures { result ≡ min (mutation_length self.now) (2 ^ 64 - 1) }
    {
        self.partition
            .encoded_length()
            .saturating_add(encoded_length(self.changes.as_slice()))
    }
}
