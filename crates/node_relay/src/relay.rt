//! The state, and the end of its run.

ghost use Rattle.std.specs.Prelude.{◌≡◌, ◌++◌, []};
ghost use Rattle.node_links.specs.Ends.{put_by, taken_by, known_to, IsLink, IsSameSender};
ghost use Rattle.node_lock.specs.Histories.{Replays};
ghost use Rattle.node_lock.specs.Passes.{IsPassOf, view_of, start_of, seats_of};

use node_links::{Receiver, Sender};
use node_lock::{History, NodeLock, Pass, Stepper};

/// The message of a step, and whether the link handed it back.
#[derive(Clone, Copy, Debug)]
pub struct Sent {
    pub message: u32,
    pub lost: bool,
}

/// A state that puts each message that it is stepped with into its link, and answers whether it came back.
#[derive(Drop)]
pub struct Relay {
    pub sender: Sender<u32>,
}

impl Stepper for Relay {
    ghost use Rattle.node_relay.specs.Relaying.{message_of, is_lost, Puts, Refuses};

    type Event = u32;

    type Reply = bool;

    type Entry = Sent;

    ghost event_of = { message_of };

    ghost reply_of = { is_lost };

    ghost steps = { Puts };

    ghost refuses = { Refuses };

    fn step(&mut self, message: u32) -> Result<(Sent, bool), u32> {
        let lost = self.sender.put(message).is_some();
        Ok((Sent { message, lost }, lost))
    }
}

ghost use Rattle.node_relay.specs.Relaying.{all_kept, Puts};

/// Closes the lock and finishes the link. What was taken, and then what is still in the link, is the messages of the
/// history, in order, save those that came back.
pub fn settle(
    lock: NodeLock<Relay>,
    pass: Pass<Relay>,
    receiver: &mut Receiver<u32>,
) -> (Relay, History<Sent>)
    requires pass { IsPassOf lock pass × ((view_of pass).seats ≡ seats_of lock) }
    requires link { IsLink (start_of lock).sender receiver.old × (put_by (start_of lock).sender ≡ []) }

    ensures all { taken_by receiver.new ++ known_to receiver.new ≡ all_kept result.1 }
    ensures taken { taken_by receiver.new ≡ taken_by receiver.old }
    ensures replays { (now : Relay) × Replays Puts (start_of lock) result.1 now × IsSameSender now.sender result.0.sender × (put_by now.sender ≡ put_by result.0.sender) }
{
    let (mut state, history) = lock.close(pass);
    receiver.finish(&mut state.sender);
    (state, history)
}
