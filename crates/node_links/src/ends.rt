//! The two ends of a link.

ghost use Rattle.std.specs.Prelude.{◌≡◌, [], ◌∷◌, ◌++◌, ◌+◌, ◌<◌, ◌≤◌, length, IfSome, IfNone, OnSome, IsSome, IsNone};
ghost use Rattle.rtrb.specs.Ring.{sent, known_free, producer_capacity};

use rtrb::{Consumer, Producer, PushError};

/// The end into which messages are put.
#[derive(Drop)]
pub struct Sender<M> {
    pub(crate) producer: Producer<M>,
    ghost sized: { producer_capacity producer ≡ 4096 },
    ghost counted: { 4096 ≤ known_free producer + length (sent producer) },
}

/// The end from which they are taken.
#[derive(Drop)]
pub struct Receiver<M> {
    pub(crate) consumer: Consumer<M>,
}

impl<M> Sender<M> {
    ghost use Rattle.node_links.specs.Ends.{put_by, known_taken, IsSameSender};

    /// Puts a message into the link, or hands it back where no free slot is known: where 4,096 messages were put that the
    /// sender doesn't know to be taken. A message that comes back counts as lost.
    pub fn put(&mut self, message: M) -> Option<M>
        ensures put { IfNone result (put_by self.new ≡ put_by self.old ++ message ∷ []) }
        ensures back { IfSome result (λ m. (m ≡ message) × (put_by self.new ≡ put_by self.old)) }
        ensures full { OnSome result (length (put_by self.new) ≡ known_taken self.new + 4096) }
        ensures room { length (put_by self.old) < known_taken self.old + 4096 → IsNone result }
        ensures known { known_taken self.old ≤ known_taken self.new }
        ensures end { IsSameSender self.old self.new }
    {
        match self.producer.push(message) {
            Ok(()) => None,
            Err(PushError::Full(back)) => Some(back),
        }
    }
}

impl<M> Receiver<M> {
    ghost use Rattle.node_links.specs.Ends.{put_by, known_taken, taken_by, known_to, IsLink, IsSameSender, IsSameReceiver};
    ghost use mathlib.Core.List.{IsPrefix};

    /// Takes the next message. `None` comes where the receiver knows of none beyond those taken.
    pub fn take(&mut self) -> Option<M>
        ensures taken { IfSome result (λ m. taken_by self.new ≡ taken_by self.old ++ m ∷ []) }
        ensures next { IfSome result (λ m. IsPrefix (known_to self.old) (m ∷ known_to self.new)) }
        ensures none { IfNone result ((taken_by self.new ≡ taken_by self.old) × (known_to self.new ≡ [])) }
        ensures known { 0 < length (known_to self.old) → IsSome result }
        ensures end { IsSameReceiver self.old self.new }
    {
        self.consumer.pop().ok()
    }

    /// Looks at the whole link, once both ends are in one thread: what was taken, and then what the receiver knows of, is
    /// what was put.
    pub fn finish(&mut self, sender: &mut Sender<M>)
        requires { IsLink sender.old self.old }

        ensures all { taken_by self.new ++ known_to self.new ≡ put_by sender.new }
        ensures front { IsPrefix (taken_by self.new) (put_by sender.new) }
        ensures same { (taken_by self.new ≡ taken_by self.old) × (put_by sender.new ≡ put_by sender.old) }

        // What the sender knew to be taken was taken, and now it knows of all that was.
        ensures known { known_taken sender.old ≤ length (taken_by self.new) }
        ensures caught_up { length (taken_by self.new) ≤ known_taken sender.new }

        ensures ends { IsSameReceiver self.old self.new × IsSameSender sender.old sender.new }
    {
        sender.producer.slots_beside(&mut self.consumer);
        self.consumer.slots_beside(&mut sender.producer);
    }
}
