//! Answers that are written.

ghost use Rattle.std.specs.Prelude.{◌≡◌, ◌≤◌, decimal, OnOk, OnErr};
ghost use Rattle.cs_base.specs.Faults.{HasRisen};
ghost use Rattle.served_console.specs.Answers.{text_of, tables_text, refusal_text as refused_text};
ghost use Rattle.served_console.specs.Writing.{WritesAll, WritesPart};

use crate::answer::{Answer, Refusal};
use cs_base::Failed;
use cs_io::Sink;
use itoa::Buffer;

/// Writes the text whole. Of a text that is not, a front is written.
pub(crate) fn write_all<T: Sink>(sink: &mut T, text: &[u8]) -> Result<(), Failed>
    ensures ok { OnOk result (WritesAll (T.contents sink.old) (T.contents sink.new) text.now) }
    ensures err { OnErr result (WritesPart (T.contents sink.old) (T.contents sink.new) text.now) }
    ensures counted { T.faults sink.old ≤ T.faults sink.new }
    ensures failed { OnErr result (HasRisen (T.faults sink.old) (T.faults sink.new)) }
{
    let mut rest = text;
    while !rest.is_empty() {
        let count = sink.write(rest)?;
        if count == 0 {
            return Err(Failed);
        }
        let (_, behind) = rest.split_at(count);
        rest = behind;
    }
    Ok(())
}

fn write_number<T: Sink>(sink: &mut T, number: u32) -> Result<(), Failed>
    ensures ok { OnOk result (WritesAll (T.contents sink.old) (T.contents sink.new) (decimal number)) }
    ensures err { OnErr result (WritesPart (T.contents sink.old) (T.contents sink.new) (decimal number)) }
    ensures counted { T.faults sink.old ≤ T.faults sink.new }
    ensures failed { OnErr result (HasRisen (T.faults sink.old) (T.faults sink.new)) }
{
    let mut buffer = Buffer::new();
    write_all(sink, buffer.format(number).as_bytes())
}

fn write_tables<T: Sink>(sink: &mut T, tables: u32) -> Result<(), Failed>
    ensures ok { OnOk result (WritesAll (T.contents sink.old) (T.contents sink.new) (tables_text tables)) }
    ensures err { OnErr result (WritesPart (T.contents sink.old) (T.contents sink.new) (tables_text tables)) }
    ensures counted { T.faults sink.old ≤ T.faults sink.new }
    ensures failed { OnErr result (HasRisen (T.faults sink.old) (T.faults sink.new)) }
{
    write_all(sink, b"tables ")?;
    write_number(sink, tables)?;
    write_all(sink, b"\n")
}

fn refusal_text(refusal: Refusal) -> &'static [u8]
    ensures { result.now ≡ refused_text refusal }
{
    match refusal {
        Refusal::Full => b"full\n",
        Refusal::NoRoom => b"no room\n",
        Refusal::TooLarge => b"too large\n",
        Refusal::NoMemory => b"no memory\n",
    }
}

/// Writes an answer, as a line.
pub(crate) fn write_answer<T: Sink>(sink: &mut T, answer: Answer) -> Result<(), Failed>
    ensures ok { OnOk result (WritesAll (T.contents sink.old) (T.contents sink.new) (text_of answer)) }
    ensures err { OnErr result (WritesPart (T.contents sink.old) (T.contents sink.new) (text_of answer)) }
    ensures counted { T.faults sink.old ≤ T.faults sink.new }
    ensures failed { OnErr result (HasRisen (T.faults sink.old) (T.faults sink.new)) }
{
    match answer {
        Answer::Nothing => write_all(sink, b""),
        Answer::Done => write_all(sink, b"ok\n"),
        Answer::Tables(tables) => write_tables(sink, tables),
        Answer::Unknown => write_all(sink, b"?\n"),
        Answer::Refused(refusal) => write_all(sink, refusal_text(refusal)),
    }
}
