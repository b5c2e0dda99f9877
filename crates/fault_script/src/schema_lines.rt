//! The statements of a script's schema.

ghost use Rattle.std.specs.Prelude.{◌≡◌, ◌<◌, ◌++◌, ◌∷◌, [], Some, OnOk, OnErr, IfOk, IfErr, length, slice_index, vec_len, vec_capacity};
ghost use Rattle.fault_script.specs.Script.{head_refusal, schema_of};
ghost use Rattle.fault_script.specs.Written.{no_statements, with_line, line_of as line_of_statement};
ghost use Rattle.fault_script.specs.Reads.{Fails, Gives};

use crate::error::ParseError;
use crate::script::{HeadStage, ScriptError, Settings, Texts};
use cql_statement::{Statement, Statements};
use cs_base::{Items, Text};
use schema_book::{Refused, Schema, SchemaError, refusals_are_first};
use std::alloc::{AllocError, Global};
use std::marker::Model;

/// The statements of a schema, with their texts and the numbers of their lines.
#[derive(Drop)]
pub struct SchemaLines {
    numbers: Vec<u64>,
    texts: Vec<Text>,
    statements: Statements,
}

impl Model for SchemaLines {
    ghost use Rattle.std.specs.Prelude.{◌≡◌, length};
    ghost use Rattle.fault_script.specs.Written.{WrittenSchema};

    ghost Value = { WrittenSchema };

    ghost view = { λ a. record { numbers = a.numbers.items; texts = a.texts.items; statements = a.statements } };

    ghost invariant = { λ a. length a.numbers.items ≡ length a.statements };
}

/// Room for a number and a text more.
fn reserve_line(numbers: &mut Vec<u64>, texts: &mut Vec<Text>) -> Result<(), AllocError>
    ensures numbers { numbers.new.items ≡ numbers.old.items }
    ensures texts { texts.new.items ≡ texts.old.items }
    ensures number { OnOk result (vec_len numbers.new < vec_capacity numbers.new) }
    ensures text { OnOk result (vec_len texts.new < vec_capacity texts.new) }
{
    numbers.reserve(1)?;
    texts.reserve(1)
}

impl SchemaLines {
    /// No statements, without an allocation.
    pub fn new(alloc: Global) -> SchemaLines
        ensures { result ≡ no_statements }
    {
        SchemaLines {
            numbers: Vec::new(alloc),
            texts: Vec::new(alloc),
            statements: Items::new(alloc),
        }
    }

    /// Adds the statement of a line. An `Err` changes nothing.
    pub fn push(&mut self, number: u64, text: Text, statement: Statement) -> Result<(), ParseError>
        ensures ok { OnOk result (self.new ≡ with_line self.old number text statement) }
        ensures err { OnErr result (self.new ≡ self.old) }
        ensures memory { IfErr result (λ e. e ≡ ParseError.NoMemory) }
    {
        let statement = reserve_line(&mut self.numbers, &mut self.texts).and(Ok(statement))?;
        self.statements.push(statement)?;
        self.numbers.push_reserved(number);
        self.texts.push_reserved(text);
        Ok(())
    }

    /// The texts of the statements.
    pub fn into_texts(self) -> Texts
        ensures { result ≡ self.texts }
    {
        Items::from_vec(self.texts)
    }

    /// The number of the line of this statement.
    fn line_of(&self, statement: usize) -> u64
        requires { statement < length self.now.statements }
        ensures { result ≡ line_of_statement self.now statement }
    {
        self.numbers[statement]
    }

    /// What the statements make, or the line of the first that is refused.
    pub fn schema(&self, alloc: Global, settings: &Settings) -> Result<Schema, ParseError>
        ensures { Gives result (schema_of settings.now self.now) }
    {
        refusals_are_first();
        let nodes = settings.ring.nodes();
        let Settings { factor, grace, .. } = *settings;
        match Schema::from_statements(alloc, &self.statements, nodes, factor, grace) {
            Ok(schema) => Ok(schema),
            Err(SchemaError::Refused(Refused { statement, .. })) => {
                Err(ParseError::Script(ScriptError::Head(self.line_of(statement))))
            }
            Err(SchemaError::NoMemory) => Err(ParseError::NoMemory),
        }
    }

    /// The refusal of a line of the head, or that of the schema before it.
    pub fn refuse(&self, alloc: Global, stage: &HeadStage, error: ScriptError) -> ParseError
        ensures { Fails (λ e. e ≡ head_refusal stage.now self.now error) result }
    {
        let HeadStage::Schema(settings) = stage else {
            return ParseError::Script(error);
        };
        match self.schema(alloc, settings) {
            Ok(_) => ParseError::Script(error),
            Err(refusal) => refusal,
        }
    }
}
