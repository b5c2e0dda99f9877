//! The links that lead from a node to the others.

ghost use Rattle.std.specs.Prelude.{◌≡◌, ◌++◌, [], ◌∷◌, Bool, true, false, map, position};
ghost use Rattle.std.specs.List.{list_any};
ghost use Rattle.wired_node.specs.Sending.{leads_to, message_in};

use cs_base::NodeId;
use http_server::Log;
use node_links::Sender;
use peer_messages::{Message, Messages};

/// The end of the link that leads to a node.
#[derive(Drop)]
pub struct NodeSender {
    pub upto: NodeId,
    pub sender: Sender<Message>,
}

impl NodeSender {
    ghost use Rattle.wired_node.specs.Sending.{IsPut};

    /// Puts a message into the link, and tells whether it is lost.
    fn put(&mut self, message: Message) -> bool
        requires { self.old.upto ≡ message.upto }
        ensures { IsPut ((message, result) ∷ []) self.old self.new }
    {
        self.sender.put(message).is_some()
    }
}

ghost use Rattle.wired_node.specs.Sending.{ArePut, AreLostUnlinked, AreDistinct};

/// The place of the link that leads to a node.
fn place_of(senders: &[NodeSender], upto: NodeId) -> Option<usize>
    ensures { result ≡ position (leads_to upto) senders.now }
{
    senders.iter().position(|sender| sender.upto == upto)
}

/// Puts a message into the link that leads to its node, and tells whether it is lost. It is where no link leads there.
fn put(senders: &mut [NodeSender], message: Message) -> bool
    requires { AreDistinct senders.old }
    ensures put { ArePut ((message, result) ∷ []) senders.old senders.new }
    ensures unlinked { list_any (leads_to message.upto) senders.old ≡ false → result ≡ true }
{
    match place_of(senders, message.upto) {
        Some(place) => {
            let sender = &mut senders[place];
            sender.put(message)
        }
        None => {
            drop(message);
            true
        }
    }
}

/// Puts one more message, and notes whether it is lost.
fn put_next(
    senders: &mut [NodeSender],
    sent: &Log<Message, bool>,
    message: Message,
) -> Log<Message, bool>
    requires { AreDistinct senders.old }
    ensures { (lost : Bool) × (result.items ≡ sent.now.items ++ (message, lost) ∷ []) × ArePut ((message, lost) ∷ []) senders.old senders.new × (list_any (leads_to message.upto) senders.old ≡ false → lost ≡ true) }
{
    let with_loss = sent.and(&message, &true);
    let with_message = sent.and(&message, &false);
    if put(senders, message) {
        with_loss
    } else {
        with_message
    }
}

/// Puts messages into the links that lead to their nodes, in order, and tells of each whether it is lost.
pub(crate) fn put_all(senders: &mut [NodeSender], messages: Messages) -> Log<Message, bool>
    requires { AreDistinct senders.old }
    ensures sent { map message_in result.items ≡ messages }
    ensures put { ArePut result.items senders.old senders.new }
    ensures unlinked { AreLostUnlinked result.items senders.old }
{
    let mut sent = Log::new();
    for message in messages.into_vec() {
        sent = put_next(senders, &sent, message);
    }
    sent
}
