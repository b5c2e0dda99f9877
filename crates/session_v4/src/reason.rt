//! Why a request is invalid.

ghost use Rattle.std.specs.Prelude.{◌≡◌};
ghost use Rattle.session_v4.specs.Refusals.{invalid_name as invalid_name_of, reason_name};

use peer_messages::Invalid;

/// Why a request is invalid.
#[derive(Clone, Copy, Debug, PartialEq, Eq)]
pub enum Reason {
    Invalid(Invalid),
    /// The state of its page is none.
    BadPaging,
    /// The response that is due has no word.
    NoWord,
}

fn invalid_name(cause: Invalid) -> &'static str
    ensures { result.now ≡ invalid_name_of cause }
{
    match cause {
        Invalid::SerialWrite => "SerialWrite",
        Invalid::Level => "Level",
        Invalid::UnknownTable => "UnknownTable",
        Invalid::PartitionTooLarge => "PartitionTooLarge",
        Invalid::Statement(fault) => fault.name(),
    }
}

impl Reason {
    /// The name that is sent.
    pub(crate) fn name(self) -> &'static str
        ensures { result.now ≡ reason_name self }
    {
        match self {
            Reason::Invalid(cause) => invalid_name(cause),
            Reason::BadPaging => "BadPaging",
            Reason::NoWord => "NotSupported",
        }
    }
}
