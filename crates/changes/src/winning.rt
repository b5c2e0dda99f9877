//! Which change beats, covers or outranks another, by Cassandra's rules: the higher timestamp wins, at an equal one a
//! deletion, then the greater value; a deletion takes with it all that lies in its place and is not later.

ghost use Rattle.std.specs.Prelude.{◌≡◌, ◌↔◌, IsTrue};
ghost use Rattle.changes.specs.Order.{Beats, Covers, IsDeletion, LiesIn, Outranks, rank_cmp, value_cmp};

use crate::{Held, Place};
use cs_base::Bytes;
use std::cmp::Ordering;

/// A deletion is above a value, and the greater value above the lesser.
pub fn value_order(a: &Option<Bytes>, b: &Option<Bytes>) -> Ordering
    ensures { result ≡ value_cmp a.now b.now }
{
    match (a, b) {
        (None, None) => Ordering::Equal,
        (None, Some(_)) => Ordering::Greater,
        (Some(_), None) => Ordering::Less,
        (Some(x), Some(y)) => x.cmp(y),
    }
}

/// Whether the second place is the first, or lies in it.
fn lies_in(inner: &Place, outer: &Place) -> bool
    ensures { IsTrue result ↔ LiesIn inner.now outer.now }
{
    outer == inner || outer.encloses(inner)
}

impl Held {
    /// The later timestamp, then a deletion and the greater value, then the later submission, then the request.
    pub fn rank(&self, other: &Held) -> Ordering
        ensures { result ≡ rank_cmp self.now other.now }
    {
        match self.timestamp.cmp(&other.timestamp) {
            Ordering::Equal => value_order(&self.value, &other.value)
                .then(self.submitted.cmp(&other.submitted))
                .then(self.request.cmp(&other.request)),
            later => later,
        }
    }

    /// A cell without a value is one, and each change that deletes rows.
    pub fn is_deletion(&self) -> bool
        ensures { IsTrue result ↔ IsDeletion self.now }
    {
        match &self.place {
            Place::Cell(_, _) => self.value.is_none(),
            Place::Marker(_) => false,
            Place::RowGone(_) | Place::RangeGone(_, _) | Place::PartGone => true,
        }
    }

    /// Whether it wins at a place that both have.
    pub fn beats(&self, other: &Held) -> bool
        ensures { IsTrue result ↔ Beats self.now other.now }
    {
        self.place == other.place && self.rank(other).is_gt()
    }

    /// Whether it is a deletion that takes the other with it.
    pub fn covers(&self, other: &Held) -> bool
        ensures { IsTrue result ↔ Covers self.now other.now }
    {
        self.is_deletion()
            && lies_in(&other.place, &self.place)
            && other.timestamp <= self.timestamp
            && !other.beats(self)
    }

    /// Whether it beats the other, or is another one that covers it.
    pub fn outranks(&self, other: &Held) -> bool
        ensures { IsTrue result ↔ Outranks self.now other.now }
    {
        if self.place == other.place {
            return self.rank(other).is_gt();
        }
        other.timestamp <= self.timestamp && self.place.encloses(&other.place)
    }
}
