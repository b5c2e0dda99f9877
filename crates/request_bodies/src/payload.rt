//! Custom payloads, which are passed over (native_protocol_v4.spec, section 2.2).

ghost use Rattle.std.specs.Prelude.{◌≡◌};
ghost use Rattle.body_notations.specs.Reading.{Gives};
ghost use Rattle.request_bodies.specs.Reading.{payload_at, behind_entry, behind_entries};

use body_notations::{Fault, read_short, skip_bytes, skip_string};

/// The bytes behind an entry of a payload: a [string] and [bytes].
fn skip_entry(bytes: &[u8]) -> Result<&[u8], Fault>
    ensures { Gives (λ rest. rest.now) result (behind_entry bytes.now) }
{
    let rest = skip_string(bytes)?;
    skip_bytes(rest)
}

fn skip_entries(count: u16, bytes: &[u8]) -> Result<&[u8], Fault>
    ensures { Gives (λ rest. rest.now) result (behind_entries count bytes.now) }
{
    let mut rest = bytes;
    for _ in 0..count {
        rest = skip_entry(rest)?;
    }
    Ok(rest)
}

/// The bytes behind a custom payload, if there is one.
pub(crate) fn skip_payload(present: bool, bytes: &[u8]) -> Result<&[u8], Fault>
    ensures { Gives (λ rest. rest.now) result (payload_at present bytes.now) }
{
    if !present {
        return Ok(bytes);
    }
    let (count, rest) = read_short(bytes)?;
    skip_entries(count, rest)
}
