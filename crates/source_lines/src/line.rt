//! A line that is read byte by byte.

ghost use Rattle.std.specs.Prelude.{◌≡◌, ◌≤◌, [], ◌∷◌, ◌++◌, IfOk, IfSome, OnErr, vec_len, vec_capacity};
ghost use Rattle.cs_base.specs.Faults.{HasRisen};
ghost use Rattle.source_lines.specs.Lines.{left_of, told, GivesLine, LosesPart};

use crate::ahead::Ahead;
use cs_base::Failed;
use cs_io::Source;
use std::sync::Wait;

/// How many bytes are told of a line that is longer.
pub(crate) const TOLD: usize = 4_097;

/// Keeps a byte of a line, unless it has enough.
fn keep(line: &mut Vec<u8>, byte: u8)
    requires { (vec_len line.old ≤ 4097) × (4097 ≤ vec_capacity line.old) }
    ensures line { line.new.items ≡ told (line.old.items ++ byte ∷ []) }
    ensures room { (vec_len line.new ≤ 4097) × (4097 ≤ vec_capacity line.new) }
{
    if line.len() < TOLD {
        line.push_reserved(byte);
    }
}

/// Reads the next line, and says whether there is one.
pub(crate) fn find_line<W: Wait, S: Source>(
    rt: &W,
    ahead: &mut Ahead,
    source: &mut S,
    line: &mut Vec<u8>,
) -> Result<bool, Failed>
    requires { (line.old.items ≡ []) × (vec_len line.old ≤ 4097) × (4097 ≤ vec_capacity line.old) }
    ensures ok { IfOk result (λ found. IfSome (left_of ahead.old (S.remaining source.old)) (λ left. GivesLine found left line.new.items (left_of ahead.new (S.remaining source.new)))) }
    ensures err { OnErr result (IfSome (left_of ahead.old (S.remaining source.old)) (λ left. LosesPart left line.new.items (left_of ahead.new (S.remaining source.new)))) }
    ensures room { (vec_len line.new ≤ 4097) × (4097 ≤ vec_capacity line.new) }
    ensures counted { S.faults source.old ≤ S.faults source.new }
    ensures failed { OnErr result (HasRisen (S.faults source.old) (S.faults source.new)) }
{
    for _ in rt.forever() {
        let Some(byte) = ahead.next(source)? else {
            return Ok(!line.is_empty());
        };
        if byte == b'\n' {
            return Ok(true);
        }
        keep(line, byte);
    }
    unreachable!()
}
