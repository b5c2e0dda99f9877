//! The reader of scripts.

ghost use Rattle.std.specs.Prelude.{◌≡◌, ◌<◌, ◌+◌, ◌^◌, length, IfErr, OnOk};
ghost use Rattle.fault_script.specs.Script.{refusal as refusal_of, script_with};
ghost use Rattle.fault_script.specs.Reads.{Fails, IsReadAs};

use crate::error::ParseError;
use crate::events::event_at;
use crate::head::head_line;
use crate::schema_lines::SchemaLines;
use crate::script::{
    CqlRequest, EventLine, Fault, HeadLine, HeadStage, LineError, Script, ScriptError, ScriptEvent,
    ScriptEvents, Settings, Texts,
};
use crate::statements::{StatementError, line_statement, read_statement};
use cs_base::{Items, Text};
use schema_book::Schema;
use script_words::{first_line, is_skipped};
use std::alloc::Global;

/// The longest script, in bytes: 64 MiB.
pub const LONGEST_SCRIPT: usize = 67_108_864;

/// The most lines that may stand behind `run`, with those that are passed over.
pub const MOST_LINES: u64 = 1_000_000;

/// What the whole head says.
#[derive(Drop)]
pub struct Opening {
    settings: Settings,
    schema: Schema,
    /// The number of the line behind `run`.
    first: u64,
}

/// What the next line has to be.
#[derive(Drop)]
pub enum Stage {
    Head(HeadStage),
    Events(Opening),
}

/// What was read of a script so far, and the number of its next line.
#[derive(Drop)]
struct Reader {
    number: u64,
    stage: Stage,
    written: SchemaLines,
    events: ScriptEvents,
}

/// The refusal of the line of this number.
fn refusal(fault: Fault, number: u64) -> ScriptError
    ensures { result ≡ refusal_of fault number }
{
    match fault {
        Fault::Head => ScriptError::Head(number),
        Fault::Line => ScriptError::Line(number),
        Fault::Number => ScriptError::Number(number),
    }
}

/// What was read in all.
fn script_of(opening: Opening, statements: Texts, events: ScriptEvents) -> Script
    ensures { result ≡ script_with opening statements events }
{
    let Opening {
        settings,
        schema,
        ..
    } = opening;
    Script {
        ring: settings.ring,
        factor: settings.factor,
        grace: settings.grace,
        expiry: settings.expiry,
        statements,
        schema,
        events,
    }
}

impl Reader {
    ghost use Rattle.fault_script.specs.Script.{first_reader, first_refusal, HeadGoes, HeadStops, EventGoes, EventStops, GoesBy, StopsBy, LineGoes, LineStops, Goes, Stops, end_of};
    ghost use Rattle.fault_script.specs.Reads.{Gives};
    ghost use Rattle.std.specs.Prelude.{Ok, Err};

    fn new(alloc: Global) -> Reader
        ensures { result ≡ first_reader }
    {
        Reader {
            number: 1,
            stage: Stage::Head(HeadStage::Version),
            written: SchemaLines::new(alloc),
            events: Items::new(alloc),
        }
    }

    /// The refusal of a line, or that of the schema before it.
    fn refuse(&self, alloc: Global, error: ScriptError) -> ParseError
        ensures { Fails (λ e. e ≡ first_refusal self.now.stage self.now.written error) result }
    {
        match &self.stage {
            Stage::Head(stage) => self.written.refuse(alloc, stage, error),
            Stage::Events(_) => ParseError::Script(error),
        }
    }

    /// Keeps the statement of a line `schema`.
    fn take_statement(
        &mut self,
        alloc: Global,
        settings: Settings,
        text: Text,
    ) -> Result<(), ParseError>
        ensures ok { OnOk result (HeadGoes self.old (Ok (HeadLine.Schema settings text)) self.new) }
        ensures number { OnOk result (self.new.number ≡ self.old.number) }
        ensures err { IfErr result (Fails (HeadStops self.old (Ok (HeadLine.Schema settings text)))) }
    {
        match read_statement(alloc, text.as_str()) {
            Ok(statement) => {
                self.written.push(self.number, text, statement)?;
                self.stage = Stage::Head(HeadStage::Schema(settings));
                Ok(())
            }
            Err(StatementError::At(at)) => {
                Err(self.refuse(alloc, ScriptError::Cql(self.number, at)))
            }
            Err(StatementError::NoMemory) => Err(ParseError::NoMemory),
        }
    }

    /// Makes the schema where the line is `run`.
    fn open(&mut self, alloc: Global, settings: Settings) -> Result<(), ParseError>
        requires { self.old.number < 2 ^ 63 }
        ensures ok { OnOk result (HeadGoes self.old (Ok (HeadLine.Run settings)) self.new) }
        ensures number { OnOk result (self.new.number ≡ self.old.number) }
        ensures err { IfErr result (Fails (HeadStops self.old (Ok (HeadLine.Run settings)))) }
    {
        let schema = self.written.schema(alloc, &settings)?;
        let first = self.number + 1;
        self.stage = Stage::Events(Opening {
            settings,
            schema,
            first,
        });
        Ok(())
    }

    /// Does what a line of the head says.
    fn take_head(&mut self, alloc: Global, line: HeadLine) -> Result<(), ParseError>
        requires { self.old.number < 2 ^ 63 }
        ensures ok { OnOk result (HeadGoes self.old (Ok line) self.new) }
        ensures number { OnOk result (self.new.number ≡ self.old.number) }
        ensures err { IfErr result (Fails (HeadStops self.old (Ok line))) }
    {
        match line {
            HeadLine::Next(stage) => {
                self.stage = Stage::Head(stage);
                Ok(())
            }
            HeadLine::Schema(settings, text) => self.take_statement(alloc, settings, text),
            HeadLine::Run(settings) => self.open(alloc, settings),
        }
    }

    /// Adds what a line asks for, of which CQL has to be a statement.
    fn take_event(&mut self, alloc: Global, line: EventLine) -> Result<(), ParseError>
        ensures ok { OnOk result (EventGoes self.old (Ok line) self.new) }
        ensures number { OnOk result (self.new.number ≡ self.old.number) }
        ensures err { IfErr result (Fails (EventStops self.old (Ok line))) }
    {
        let event = match line {
            EventLine::Event(event) => event,
            EventLine::Cql(node, level, text) => {
                let statement = line_statement(alloc, text.as_str(), self.number)?;
                ScriptEvent::Cql(CqlRequest {
                    node,
                    level,
                    text,
                    statement,
                })
            }
        };
        self.events.push(event)?;
        Ok(())
    }

    /// Takes a line that isn't skipped.
    fn take(&mut self, alloc: Global, line: &[u8]) -> Result<(), ParseError>
        requires line { 0 < length line.now }
        requires few { self.old.number < 2 ^ 63 }
        ensures ok { OnOk result (LineGoes self.old.stage self.old line.now self.new) }
        ensures number { OnOk result (self.new.number ≡ self.old.number) }
        ensures err { IfErr result (Fails (LineStops self.old.stage self.old line.now)) }
    {
        match &self.stage {
            Stage::Head(stage) => match head_line(alloc, stage, line) {
                Ok(line) => self.take_head(alloc, line),
                Err(LineError::Fault(fault)) => {
                    Err(self.refuse(alloc, refusal(fault, self.number)))
                }
                Err(LineError::NoMemory) => Err(ParseError::NoMemory),
            },
            Stage::Events(opening) => {
                match event_at(alloc, opening.settings.ring.nodes(), line) {
                    Ok(line) => self.take_event(alloc, line),
                    Err(LineError::Fault(fault)) => {
                        Err(ParseError::Script(refusal(fault, self.number)))
                    }
                    Err(LineError::NoMemory) => Err(ParseError::NoMemory),
                }
            }
        }
    }

    /// Takes a line.
    fn take_line(&mut self, alloc: Global, line: &[u8]) -> Result<(), ParseError>
        requires { self.old.number < 2 ^ 63 }
        ensures ok { OnOk result (Goes self.old line.now self.new) }
        ensures err { IfErr result (Fails (Stops self.old line.now)) }
        ensures number { OnOk result (self.new.number ≡ self.old.number + 1) }
    {
        if !is_skipped(line) {
            self.take(alloc, line)?;
        }
        self.number += 1;
        Ok(())
    }

    /// What the lines so far give at the end of the text.
    fn finish(self, alloc: Global) -> Result<Script, ParseError>
        ensures { Gives result (end_of self) }
    {
        let Reader {
            number,
            stage,
            written,
            events,
        } = self;
        match stage {
            Stage::Head(stage) => Err(written.refuse(alloc, &stage, ScriptError::Head(number))),
            Stage::Events(opening) => {
                if number.saturating_sub(opening.first) > MOST_LINES {
                    return Err(ParseError::Script(ScriptError::TooMany));
                }
                Ok(script_of(opening, written.into_texts(), events))
            }
        }
    }
}

/// The script of a text, or why the text is none: the first line that is refused decides, and only then the number of
/// lines.
///
/// Lines are read one after another, each once. The statements of the schema are kept until `run`, and make it together;
/// one that it refuses counts as refused at its own line.
pub fn parse(alloc: Global, text: &[u8]) -> Result<Script, ParseError>
    ensures { IsReadAs text.now result }
{
    if text.len() > LONGEST_SCRIPT {
        return Err(ParseError::Script(ScriptError::TooLong));
    }
    let mut reader = Reader::new(alloc);
    let mut rest = text;
    while !rest.is_empty() {
        let (line, behind) = first_line(rest);
        reader.take_line(alloc, line)?;
        rest = behind;
    }
    reader.finish(alloc)
}
