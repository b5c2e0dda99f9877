//! What a lock can hold.

ghost use Rattle.std.specs.Prelude.{◌≡◌, IfOk, IfErr};

/// A state that goes on by events.
///
/// An impl says which steps its states make and which events they refuse. Want of memory may be among the refusals of any
/// event, told by what is handed back.
pub trait Stepper: Drop {
    type Event;

    type Reply;

    /// What the history keeps of a step. It tells the event and the reply.
    type Entry: Drop;

    // The event that an entry tells.
    ghost event_of: { Self.Entry → Self.Event };

    // The reply that an entry tells.
    ghost reply_of: { Self.Entry → Self.Reply };

    // The state makes the step of this entry, and is then the other.
    ghost steps: { Self → Self.Entry → Self → Type 0 };

    // The state refuses the first event, and hands the second back, which may tell why.
    ghost refuses: { Self → Self.Event → Self.Event → Type 0 };

    /// Makes a step, or hands the event back and stays as it was.
    fn step(&mut self, event: Self::Event) -> Result<(Self::Entry, Self::Reply), Self::Event>
        ensures ok { IfOk result (λ r. steps self.old r.0 self.new × (event_of r.0 ≡ event) × (reply_of r.0 ≡ r.1)) }
        ensures err { IfErr result (λ back. (self.new ≡ self.old) × refuses self.old event back) };
}
