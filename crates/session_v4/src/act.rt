//! Acts.

ghost use Rattle.std.specs.Prelude.{◌≡◌, ◌≢◌, IfOk};
ghost use Rattle.cql_parser.specs.declared.error.ParseError.TheVariants as parsing;
ghost use Rattle.session_v4.specs.Refusals.{invalid_error, place_of, syntax_error};

use crate::reason::Reason;
use crate::refusals::{invalid, syntax};
use cql_parser::ParseError;
use frame_bodies::Response;
use peer_messages::{Ask, Invalid};
use statement_plan::Fault;
use std::alloc::{AllocError, Global};

/// What is to be done for a frame.
#[derive(Drop)]
pub enum Act {
    /// The client is answered.
    Reply(Response),
    /// The client is answered, and the connection is closed.
    Close(Response),
    /// A node is asked, and the client gets the response to its answer.
    Submit(Ask),
}

/// A text that is no statement.
pub(crate) fn misread(alloc: Global, text: &str, error: ParseError) -> Result<Act, AllocError>
    ensures response { IfOk result (λ act. act ≡ Act.Reply (syntax_error (place_of text.now error))) }
    ensures cause { IfOk result (λ act. error ≢ parsing.NoMemory) }
{
    Ok(Act::Reply(syntax(alloc, text, error)?))
}

/// A statement that is refused whatever its values are.
pub(crate) fn unfit(alloc: Global, fault: Fault) -> Result<Act, AllocError>
    ensures { IfOk result (λ act. act ≡ Act.Reply (invalid_error (Reason.Invalid (Invalid.Statement fault)))) }
{
    let reason = Reason::Invalid(Invalid::Statement(fault));
    Ok(Act::Reply(invalid(alloc, reason)?))
}
