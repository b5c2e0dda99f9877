//! Calls of a locked node.

ghost use Rattle.std.specs.Prelude.{◌≡◌};
ghost use Rattle.node_calls.specs.Calls.{call_of, optional_call_of, refused_for};

use peer_messages::Event;

/// Why a node refused a call. The node, and all that it keeps, are then as they were.
#[derive(Clone, Copy, Debug, PartialEq, Eq)]
pub enum Cause {
    /// The call is optional, and its event has nothing to do.
    Nothing,
    /// The node's time would pass its end, or its log its length.
    NoRoom,
    /// The content of a partition would grow too large.
    TooLarge,
    /// There was no memory.
    NoMemory,
    /// A store failed in an earlier step, and the node has stopped.
    Stopped,
}

/// An event for a node under a lock. One that is refused comes back with its cause.
#[derive(Drop)]
pub struct NodeCall {
    pub event: Event,
    /// Whether it is to be taken only where it has something to do.
    pub optional: bool,
    pub cause: Option<Cause>,
}

impl NodeCall {
    /// The event is to be taken.
    pub fn new(event: Event) -> NodeCall
        ensures { result ≡ call_of event }
    {
        NodeCall {
            event,
            optional: false,
            cause: None,
        }
    }

    /// The event is to be taken where it has something to do: a `Tick` where something is due, a `Collect` where an answer is there,
    /// a `Flush` where the log has grown.
    pub fn optional(event: Event) -> NodeCall
        ensures { result ≡ optional_call_of event }
    {
        NodeCall {
            event,
            optional: true,
            cause: None,
        }
    }

    /// The call, refused for this cause.
    pub fn because(self, cause: Cause) -> NodeCall
        ensures { result ≡ refused_for cause self }
    {
        NodeCall {
            cause: Some(cause),
            ..self
        }
    }
}
