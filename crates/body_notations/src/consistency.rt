//! Consistencies.

ghost use Rattle.std.specs.Prelude.{◌≡◌};
ghost use Rattle.body_notations.specs.Notations.{consistency_code};
ghost use Rattle.body_notations.specs.Notations.{consistency_code};
ghost use Rattle.body_notations.specs.Reading.{consistency_of};
ghost use Rattle.cs_base.specs.Levels.{code_of};

use crate::fault::Fault;
use cs_base::Level;

/// A [consistency] (native_protocol_v4.spec, section 3).
#[derive(Clone, Copy, Debug, PartialEq, Eq)]
pub enum Consistency {
    /// Code 0.
    Any,
    /// Code 7.
    EachQuorum,
    /// Each other one is a level that a request can have here.
    Level(Level),
}

impl Consistency {
    /// The consistency of a code.
    pub(crate) fn from_code(code: u16) -> Result<Consistency, Fault>
        ensures { result ≡ consistency_of code }
    {
        match code {
            0 => Ok(Consistency::Any),
            7 => Ok(Consistency::EachQuorum),
            _ => match Level::from_code(code) {
                Some(level) => Ok(Consistency::Level(level)),
                None => Err(Fault::BadConsistency(code)),
            },
        }
    }

    /// The code on the wire.
    pub fn code(self) -> u16
        ensures { result ≡ consistency_code self }
    {
        match self {
            Consistency::Any => 0,
            Consistency::EachQuorum => 7,
            Consistency::Level(level) => level_code(level),
        }
    }
}

fn level_code(level: Level) -> u16
    ensures { result ≡ code_of level }
{
    match level {
        Level::One => 1,
        Level::Two => 2,
        Level::Three => 3,
        Level::Quorum => 4,
        Level::All => 5,
        Level::LocalQuorum => 6,
        Level::Serial => 8,
        Level::LocalSerial => 9,
        Level::LocalOne => 10,
    }
}
