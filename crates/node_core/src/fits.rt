//! What fits the setting of a cluster and can be written in a log. What does not is not taken.

ghost use Rattle.std.specs.Prelude.{◌≡◌, IsTrue};
ghost use Rattle.std.specs.List.{list_all};
ghost use Rattle.stored_changes.specs.Spelling.{MutationFits};
ghost use Rattle.node_core.specs.Working.{BodyFits};
ghost use Rattle.node_steps.specs.Fitting.{is_short as is_short_of, place_fits as place_fits_of, value_fits as value_fits_of, change_fits as change_fits_of, are_in_order as are_in_order_of, changes_fit as changes_fit_of, mutation_fits as mutation_fits_of, is_node as is_node_of, is_table as is_table_of, write_fits as write_fits_of, query_fits as query_fits_of, body_fits as body_fits_of, message_fits as message_fits_of, mark_fits as mark_fits_of};

use changes::{Held, Mutation, Partition, Place, Query, are_in_order};
use cs_base::{Bytes, NodeId};
use node_steps::what_fits_is_tested;
use peer_messages::{Body, Message, Setting};

/// Lengths and counts are below this.
const SHORT: u64 = 1 << 32;

fn is_short(bytes: &Bytes) -> bool
    ensures { result ≡ is_short_of bytes.now }
{
    (bytes.as_slice().len() as u64) < SHORT
}

fn place_fits(place: &Place) -> bool
    ensures { result ≡ place_fits_of place.now }
{
    match place {
        Place::Cell(row, _) | Place::Marker(row) | Place::RowGone(row) => is_short(row),
        Place::RangeGone(from, upto) => is_short(&from.at) && is_short(&upto.at),
        Place::PartGone => true,
    }
}

/// A marker has an empty value, and a deletion of more than a cell has none.
fn value_fits(place: &Place, value: &Option<Bytes>) -> bool
    ensures { result ≡ value_fits_of place.now value.now }
{
    match (place, value) {
        (Place::Cell(..), Some(bytes)) => is_short(bytes),
        (Place::Cell(..), None) => true,
        (Place::Marker(_), Some(bytes)) => bytes.as_slice().is_empty(),
        (Place::Marker(_), None) => false,
        (Place::RowGone(_) | Place::RangeGone(..) | Place::PartGone, value) => value.is_none(),
    }
}

fn change_fits(change: &Held) -> bool
    ensures { result ≡ change_fits_of change.now }
{
    place_fits(&change.place) && value_fits(&change.place, &change.value)
}

fn each_fits(changes: &[Held]) -> bool
    ensures { result ≡ list_all change_fits_of changes.now }
{
    changes.iter().all(|change| change_fits(change))
}

fn in_order(changes: &[Held]) -> bool
    ensures { result ≡ are_in_order_of changes.now }
{
    are_in_order(changes)
}

pub(crate) fn changes_fit(changes: &[Held]) -> bool
    ensures { result ≡ changes_fit_of changes.now }
{
    (changes.len() as u64) < SHORT && each_fits(changes) && in_order(changes)
}

pub(crate) fn mutation_fits(mutation: &Mutation) -> bool
    ensures tested { result ≡ mutation_fits_of mutation.now }
    ensures fits { IsTrue result → MutationFits mutation.now }
{
    what_fits_is_tested();
    is_short(&mutation.partition.key) && changes_fit(mutation.changes.as_slice())
}

fn is_table(setting: &Setting, partition: &Partition) -> bool
    ensures { result ≡ is_table_of setting.now partition.now }
{
    setting.has_table(partition.table)
}

fn is_node(setting: &Setting, node: NodeId) -> bool
    ensures { result ≡ is_node_of setting.now node }
{
    node.number() < setting.ring.nodes()
}

pub(crate) fn write_fits(setting: &Setting, mutation: &Mutation) -> bool
    ensures tested { result ≡ write_fits_of setting.now mutation.now }
    ensures fits { IsTrue result → MutationFits mutation.now }
{
    is_table(setting, &mutation.partition) && mutation_fits(mutation)
}

pub(crate) fn query_fits(setting: &Setting, query: &Query) -> bool
    ensures { result ≡ query_fits_of setting.now query.now }
{
    is_table(setting, &query.partition) && is_short(&query.partition.key)
}

fn body_fits(setting: &Setting, body: &Body) -> bool
    ensures tested { result ≡ body_fits_of setting.now body.now }
    ensures fits { IsTrue result → BodyFits body.now }
{
    match body {
        Body::Write(mutation) | Body::Mend(mutation) | Body::Hint(_, mutation) => write_fits(
            setting, mutation,
        ),
        Body::WriteAck | Body::MendAck | Body::HintAck(_) => true,
        Body::Read(query) => query_fits(setting, query),
        Body::ReadReply(content) => changes_fit(content.as_slice()),
    }
}

/// Whether a message goes to this node from another one, its nodes are of the ring, and it can be taken.
pub(crate) fn message_fits(setting: &Setting, me: NodeId, message: &Message) -> bool
    ensures tested { result ≡ message_fits_of setting.now me message.now }
    ensures fits { IsTrue result → BodyFits message.now.body }
{
    message.upto == me
        && message.from != me
        && is_node(setting, message.from)
        && is_node(setting, message.request.node)
        && body_fits(setting, &message.body)
}

/// Whether a mark is of another node of the ring.
pub(crate) fn mark_fits(setting: &Setting, me: NodeId, peer: NodeId) -> bool
    ensures { result ≡ mark_fits_of setting.now me peer }
{
    peer != me && is_node(setting, peer)
}
