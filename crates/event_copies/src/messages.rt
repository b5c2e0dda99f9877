//! Copies of messages.

ghost use Rattle.std.specs.Prelude.{◌≡◌, IfOk};

use peer_messages::{Body, Message};
use std::alloc::{AllocError, Global};

fn copy_body(alloc: Global, body: &Body) -> Result<Body, AllocError>
    ensures { IfOk result (λ copy. copy ≡ body.now) }
{
    Ok(match body {
        Body::Write(mutation) => Body::Write(mutation.copy(alloc)?),
        Body::WriteAck => Body::WriteAck,
        Body::Read(query) => Body::Read(query.copy(alloc)?),
        Body::ReadReply(content) => Body::ReadReply(content.copy(alloc)?),
        Body::Mend(mutation) => Body::Mend(mutation.copy(alloc)?),
        Body::MendAck => Body::MendAck,
        Body::Hint(number, mutation) => Body::Hint(*number, mutation.copy(alloc)?),
        Body::HintAck(number) => Body::HintAck(*number),
    })
}

/// An equal message in memory of its own.
pub fn copy_message(alloc: Global, message: &Message) -> Result<Message, AllocError>
    ensures { IfOk result (λ copy. copy ≡ message.now) }
{
    Ok(Message {
        from: message.from,
        upto: message.upto,
        time: message.time,
        born: message.born,
        request: message.request,
        body: copy_body(alloc, &message.body)?,
    })
}
