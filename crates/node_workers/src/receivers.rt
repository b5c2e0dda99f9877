//! The receivers of a node's links.

use node_links::Receiver;
use peer_messages::Message;
use std::marker::Model;

/// The receivers of a node's links, as contracts see them: a list, of which the first has place 0.
#[derive(Drop)]
pub struct Receivers {
    receivers: Vec<Receiver<Message>>,
}

impl Model for Receivers {
    ghost use Rattle.std.specs.Prelude.{List};
    ghost use Rattle.node_links.specs.declared.ends.Receiver.{Receiver};
    ghost use Rattle.peer_messages.specs.declared.message.Message.{Message};

    ghost Value = { List (Receiver Message) };

    ghost view = { λ a. a.receivers.items };
}

impl Receivers {
    ghost use Rattle.std.specs.Prelude.{◌≡◌, ◌<◌, length};
    ghost use Rattle.node_workers.specs.Taking.{Take, taken_at};

    /// Takes the receivers over, without an allocation.
    pub fn from_vec(receivers: Vec<Receiver<Message>>) -> Receivers
        ensures { result ≡ receivers.items }
    {
        Receivers { receivers }
    }

    /// Gives the receivers back, without an allocation.
    pub fn into_vec(self) -> Vec<Receiver<Message>>
        ensures { result.items ≡ self }
    {
        self.receivers
    }

    pub(crate) fn len(&self) -> usize
        ensures { result ≡ length self.now }
    {
        self.receivers.len()
    }

    /// Takes the next message of the link at this place, if its receiver knows of one.
    pub(crate) fn take(&mut self, place: usize) -> Option<Message>
        requires { place < length self.old }
        ensures taken { Take self.old (taken_at place result) self.new }
        ensures same { length self.new ≡ length self.old }
    {
        let receiver = &mut self.receivers[place];
        receiver.take()
    }
}
