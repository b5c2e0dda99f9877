//! Connections.

ghost use Rattle.std.specs.Prelude.{◌≡◌, ◌≢◌, ◌↔◌, IsTrue, IfErr, IfOk, OnErr, OnOk, Some, None, Ok, IsSome, pos, option_copied};
ghost use Rattle.cql_parser.specs.declared.error.ParseError.TheVariants as parsing;
ghost use Rattle.prepared_statement.specs.Prepared.{outline_of};
ghost use Rattle.session_v4.specs.Kept.{id_of as id_of_text};
ghost use Rattle.session_v4.specs.Outcomes.{named_state as named_state_of};
ghost use Rattle.session_v4.specs.declared.act.Act.TheVariants as acts;
ghost use Rattle.session_v4.specs.Sessions.{fresh, kept_as, state_in, used_by as used_by_name, AwaitsFor, FoundAs, IsAnswered, IsBatchDue, IsChangesDue, IsClosed, IsDue, IsExecuteDue, IsKeptDue, IsPrepareDue, IsQueryDue, IsReadDue, IsReadPrepared, IsRequestDue, IsStartupDue, IsStatementDue, IsTakenDue, Keeps, prepared_response, StatementComesTo, Takes, ToldAs, Waits};
ghost use Rattle.frame_v4.specs.declared.error.FrameError.TheVariants as framing;

use crate::act::{Act, misread, unfit};
use crate::answers::answer_of;
use crate::batches::{Entries, entries_of, lists_of};
use crate::described::told_of;
use crate::given::params_of;
use crate::kept::{KeptStatement, id_of, keep_if, kept_at};
use crate::outcome::{Outcome, Terms, Wanted, batch_terms, filled_outcome};
use crate::refusals::{invalid, protocol, unframed, unprepared, unread};
use crate::startup::{needs_startup, startup_fault, supported};
use crate::words::has_word;
use client_desk::Answer;
use cql_parser::{ParseError, parse};
use cql_statement::Statement;
use cs_base::{Bytes, Items, Text};
use frame_bodies::{
    Batch, BodyError, Execute, Query, QueryParameters, Request, Response, StringPair,
    decode_request,
};
use frame_v4::{Frame, FrameError};
use prepared_statement::{Changes, Prepared, outline};
use schema_book::Schema;
use statement_binder::{BindError, Values, prepare};
use statement_plan::{Fault, Feature};
use std::alloc::{AllocError, Global};

/// The longest keyspace's name that an answer can tell.
const MOST_NAME: usize = 65_535;

/// The request that a node was asked, and what its answer is to show.
#[derive(Drop)]
pub(crate) struct Awaited {
    pub stream: i16,
    pub wanted: Wanted,
}

/// A connection: what its client was told so far, and what it asks.
///
/// A frame is answered at once, or a node is to be asked and its answer given to [`Session::answer`]; the next frame comes
/// behind that.
#[derive(Drop)]
pub struct Session<'a> {
    pub(crate) alloc: Global,
    pub(crate) schema: &'a Schema,
    started: bool,
    keyspace: Option<Text>,
    pub(crate) kept: Vec<KeptStatement>,
    awaited: Option<Awaited>,
}

/// The keyspace in use behind a USE whose answer has a word, or else the one before.
fn used_by(before: Option<Text>, name: Text) -> Option<Text>
    ensures { result ≡ used_by_name before name }
{
    if name.as_str().len() <= MOST_NAME {
        Some(name)
    } else {
        before
    }
}

/// A null state is none.
fn named_state(state: Option<Option<Bytes>>) -> Option<Bytes>
    ensures { result ≡ named_state_of state }
{
    match state {
        None => None,
        Some(state) => state,
    }
}

/// What a statement comes to with the values, the timestamp and the terms of a request.
fn statement_outcome(
    alloc: Global,
    prepared: &Prepared,
    parameters: QueryParameters,
) -> Result<Outcome, AllocError>
    ensures { IfOk result (StatementComesTo parameters prepared.now) }
{
    let QueryParameters {
        consistency,
        values,
        skip_metadata,
        page_size,
        paging_state,
        serial_consistency,
        timestamp,
    } = parameters;
    let terms = Terms {
        consistency,
        serial_consistency,
        skip_metadata,
        page_size,
        paging_state: named_state(paging_state),
    };
    let params = params_of(alloc, values)?;
    filled_outcome(alloc, &terms, prepared, Values::Whole(&params), timestamp)
}

fn copied_id(alloc: Global, execute: &Execute) -> Result<Bytes, AllocError>
    ensures { IfOk result (λ id. id ≡ execute.now.id) }
{
    execute.id.copy(alloc)
}

impl<'a> Session<'a> {
    /// A connection whose client said nothing yet.
    pub fn new(alloc: Global, schema: &'a Schema) -> Session<'a>
        ensures { state_in result ≡ fresh schema.now }
    {
        Session {
            alloc,
            schema,
            started: false,
            keyspace: None,
            kept: Vec::new(alloc),
            awaited: None,
        }
    }

    /// The keyspace in use.
    pub(crate) fn used(&self) -> Option<&str>
        ensures { option_copied result ≡ (state_in self.now).used }
    {
        match &self.keyspace {
            None => None,
            Some(name) => Some(name.as_str()),
        }
    }

    /// STARTUP.
    fn start(&mut self, options: &[StringPair]) -> Result<Act, AllocError>
        ensures due { IfOk result (λ act. IsStartupDue (state_in self.old) options.now act (state_in self.new)) }
        ensures no_memory { OnErr result (state_in self.new ≡ state_in self.old) }
    {
        match startup_fault(self.started, options) {
            Some(text) => Ok(Act::Reply(protocol(self.alloc, text)?)),
            None => {
                self.started = true;
                Ok(Act::Reply(Response::Ready))
            }
        }
    }

    /// USE. The keyspace is in use where the answer has a word.
    fn use_keyspace(&mut self, name: Text) -> Result<Act, AllocError>
        ensures due { IfOk result (λ act. Takes (state_in self.old) (pos 0) (Outcome.Use name) act (state_in self.new)) }
        ensures no_memory { OnErr result (state_in self.new ≡ state_in self.old) }
    {
        let told = name.copy(self.alloc)?;
        self.keyspace = used_by(self.keyspace.take(), name);
        Ok(Act::Reply(Response::SetKeyspace(told)))
    }

    /// What a request on this stream came to.
    fn come_to(&mut self, stream: i16, outcome: Outcome) -> Result<Act, AllocError>
        ensures due { IfOk result (λ act. Takes (state_in self.old) stream outcome act (state_in self.new)) }
        ensures no_memory { OnErr result (state_in self.new ≡ state_in self.old) }
    {
        match outcome {
            Outcome::Refused(reason) => Ok(Act::Reply(invalid(self.alloc, reason)?)),
            Outcome::Use(name) => self.use_keyspace(name),
            Outcome::Submit(ask, wanted) => {
                self.awaited = Some(Awaited { stream, wanted });
                Ok(Act::Submit(ask))
            }
        }
    }

    /// QUERY, once its text was read.
    fn run(
        &mut self,
        stream: i16,
        statement: &Statement,
        parameters: QueryParameters,
    ) -> Result<Act, AllocError>
        ensures due { IfOk result (λ act. IsStatementDue (state_in self.old) stream parameters (outline_of (state_in self.old).book (state_in self.old).used statement.now) act (state_in self.new)) }
        ensures no_memory { OnErr result (state_in self.new ≡ state_in self.old) }
    {
        let prepared = outline(self.alloc, self.schema, self.used(), statement)?;
        let outcome = statement_outcome(self.alloc, &prepared, parameters);
        drop(prepared);
        self.come_to(stream, outcome?)
    }

    /// QUERY, as its text was read.
    fn query_read(
        &mut self,
        stream: i16,
        text: &str,
        read: &Result<Statement, ParseError>,
        parameters: QueryParameters,
    ) -> Result<Act, AllocError>
        ensures due { IfOk result (λ act. IsReadDue (state_in self.old) stream (record { query = text.now; parameters = parameters }) read.now act (state_in self.new)) }
        ensures cause { IfOk result (λ act. IfErr read.now (λ error. error ≢ parsing.NoMemory)) }
        ensures no_memory { OnErr result (state_in self.new ≡ state_in self.old) }
    {
        match read {
            Ok(statement) => self.run(stream, statement, parameters),
            Err(error) => misread(self.alloc, text, *error),
        }
    }

    fn query(&mut self, stream: i16, query: Query) -> Result<Act, AllocError>
        ensures due { IfOk result (λ act. IsQueryDue (state_in self.old) stream query act (state_in self.new)) }
        ensures no_memory { OnErr result (state_in self.new ≡ state_in self.old) }
    {
        let Query { query, parameters } = query;
        let read = parse(self.alloc, query.as_str());
        let act = self.query_read(stream, query.as_str(), &read, parameters);
        drop(read);
        act
    }

    /// What a prepared statement comes to, or None where there is none of this id.
    fn found(&self, execute: Execute) -> Result<Option<Outcome>, AllocError>
        ensures { IfOk result (FoundAs (state_in self.now) execute) }
    {
        let Execute { id, parameters } = execute;
        match kept_at(self.kept.as_slice(), id.as_slice()) {
            None => Ok(None),
            Some(kept) => {
                let outcome = statement_outcome(self.alloc, &kept.prepared, parameters)?;
                Ok(Some(outcome))
            }
        }
    }

    fn execute(&mut self, stream: i16, execute: Execute) -> Result<Act, AllocError>
        ensures due { IfOk result (λ act. IsExecuteDue (state_in self.old) stream execute act (state_in self.new)) }
        ensures no_memory { OnErr result (state_in self.new ≡ state_in self.old) }
    {
        let id = copied_id(self.alloc, &execute)?;
        match self.found(execute)? {
            Some(outcome) => self.come_to(stream, outcome),
            None => {
                let response = unprepared(self.alloc, &id)?;
                Ok(Act::Reply(response))
            }
        }
    }

    /// The id of a text's statement, and what a client is told of it.
    fn described(&self, text: &str, prepared: &Prepared) -> Result<(Bytes, Response), AllocError>
        ensures id { IfOk result (λ x. x.0 ≡ id_of_text (state_in self.now).used text.now) }
        ensures response { IfOk result (λ x. x.1 ≡ prepared_response (state_in self.now) (kept_as (state_in self.now) text.now prepared.now)) }
    {
        let id = id_of(self.alloc, self.used(), text)?;
        let told = told_of(self.alloc, self.schema, &id, prepared)?;
        Ok((id, Response::Prepared(told)))
    }

    /// Keeps a statement where this answer has a word.
    fn keep(&mut self, statement: KeptStatement, response: Response) -> Result<Act, AllocError>
        ensures act { IfOk result (λ act. act ≡ acts.Reply response) }
        ensures kept { OnOk result (Keeps (state_in self.old) statement response (state_in self.new)) }
        ensures no_memory { OnErr result (state_in self.new ≡ state_in self.old) }
    {
        let has_word = has_word(&response);
        keep_if(&mut self.kept, has_word, statement).and(Ok(Act::Reply(response)))
    }

    /// Keeps a statement where the answer has a word.
    fn keep_prepared(&mut self, text: &str, prepared: Prepared) -> Result<Act, AllocError>
        ensures due { IfOk result (λ act. IsKeptDue (state_in self.old) (kept_as (state_in self.old) text.now prepared) act (state_in self.new)) }
        ensures no_memory { OnErr result (state_in self.new ≡ state_in self.old) }
    {
        match self.described(text, &prepared) {
            Ok((id, response)) => self.keep(KeptStatement { id, prepared }, response),
            Err(error) => {
                drop(prepared);
                Err(error)
            }
        }
    }

    /// PREPARE of this statement.
    fn prepare_statement(&mut self, text: &str, statement: &Statement) -> Result<Act, AllocError>
        ensures due { IfOk result (λ act. IsReadPrepared (state_in self.old) text.now (Ok statement.now) act (state_in self.new)) }
        ensures no_memory { OnErr result (state_in self.new ≡ state_in self.old) }
    {
        match prepare(self.alloc, self.schema, self.used(), statement) {
            Ok(prepared) => self.keep_prepared(text, prepared),
            Err(BindError::Refused(fault)) => unfit(self.alloc, fault),
            Err(BindError::NoMemory) => Err(AllocError),
        }
    }

    /// PREPARE, as its text was read.
    fn prepare_read(
        &mut self,
        text: &str,
        read: &Result<Statement, ParseError>,
    ) -> Result<Act, AllocError>
        ensures due { IfOk result (λ act. IsReadPrepared (state_in self.old) text.now read.now act (state_in self.new)) }
        ensures cause { IfOk result (λ act. IfErr read.now (λ error. error ≢ parsing.NoMemory)) }
        ensures no_memory { OnErr result (state_in self.new ≡ state_in self.old) }
    {
        match read {
            Ok(statement) => self.prepare_statement(text, statement),
            Err(error) => misread(self.alloc, text, *error),
        }
    }

    fn prepare(&mut self, text: &str) -> Result<Act, AllocError>
        ensures due { IfOk result (λ act. IsPrepareDue (state_in self.old) text.now act (state_in self.new)) }
        ensures no_memory { OnErr result (state_in self.new ≡ state_in self.old) }
    {
        let read = parse(self.alloc, text);
        let act = self.prepare_read(text, &read);
        drop(read);
        act
    }

    /// BATCH of these changes.
    fn run_batch(&mut self, stream: i16, batch: Batch, changes: Changes) -> Result<Act, AllocError>
        ensures due { IfOk result (λ act. IsChangesDue (state_in self.old) stream batch (Some changes) act (state_in self.new)) }
        ensures no_memory { OnErr result (state_in self.new ≡ state_in self.old) }
    {
        let terms = batch_terms(&batch);
        let timestamp = batch.timestamp;
        let lists = lists_of(self.alloc, batch.entries)?;
        let slots = Items::new(self.alloc);
        let prepared = Prepared::Batch(prepared_statement::Batch { slots, changes });
        let values = Values::Each(lists.as_slice());
        let outcome = filled_outcome(self.alloc, &terms, &prepared, values, timestamp);
        drop(prepared);
        self.come_to(stream, outcome?)
    }

    fn batch(&mut self, stream: i16, batch: Batch) -> Result<Act, AllocError>
        ensures due { IfOk result (λ act. IsBatchDue (state_in self.old) stream batch act (state_in self.new)) }
        ensures no_memory { OnErr result (state_in self.new ≡ state_in self.old) }
    {
        match entries_of(self, batch.entries.as_slice())? {
            Entries::Refused(response) => Ok(Act::Reply(response)),
            Entries::Found(Some(changes)) => self.run_batch(stream, batch, changes),
            Entries::Found(None) => unfit(self.alloc, Fault::NotSupported(Feature::Batch)),
        }
    }

    /// What is due for a request that may stand here.
    fn serve(&mut self, stream: i16, request: Request) -> Result<Act, AllocError>
        ensures due { IfOk result (λ act. IsTakenDue (state_in self.old) stream request act (state_in self.new)) }
        ensures no_memory { OnErr result (state_in self.new ≡ state_in self.old) }
    {
        match request {
            Request::Startup(options) => self.start(options.as_slice()),
            Request::Options => Ok(Act::Reply(supported(self.alloc)?)),
            Request::Query(query) => self.query(stream, query),
            Request::Prepare(text) => self.prepare(text.as_str()),
            Request::Execute(execute) => self.execute(stream, execute),
            Request::Register(_) => Ok(Act::Reply(Response::Ready)),
            Request::Batch(batch) => self.batch(stream, batch),
        }
    }

    fn take(&mut self, stream: i16, request: Request) -> Result<Act, AllocError>
        ensures due { IfOk result (λ act. IsRequestDue (state_in self.old) stream request act (state_in self.new)) }
        ensures no_memory { OnErr result (state_in self.new ≡ state_in self.old) }
    {
        if needs_startup(&request) && !self.started {
            drop(request);
            return Ok(Act::Reply(protocol(self.alloc, "startup first")?));
        }
        self.serve(stream, request)
    }

    /// What is to be done for the next frame. Its response has the frame's stream. Whether it has a word is for who makes a frame
    /// of it: [`wordless`](crate::wordless) stands in the place of one that has none. An `Err` leaves the connection as it was.
    pub fn step(&mut self, frame: &Frame) -> Result<Act, AllocError>
        ensures due { IfOk result (λ act. IsDue (state_in self.old) frame.now act (state_in self.new)) }
        ensures awaited { IfOk result (AwaitsFor (state_in self.new) frame.now.stream) }
        ensures no_memory { OnErr result (state_in self.new ≡ state_in self.old) }
    {
        match decode_request(self.alloc, frame) {
            Ok(request) => self.take(frame.stream, request),
            Err(BodyError::NoMemory) => Err(AllocError),
            Err(error) => Ok(Act::Reply(unread(self.alloc, error)?)),
        }
    }

    /// What is to be done where the client's bytes are no frames from here on: the connection is closed, with a response
    /// on the stream of [`stream_of`](crate::stream_of).
    pub fn refuse(&mut self, error: &FrameError) -> Result<Act, AllocError>
        requires { error.now ≢ framing.NoMemory }
        ensures due { IfOk result (IsClosed error.now) }
        ensures state { state_in self.new ≡ state_in self.old }
    {
        Ok(Act::Close(unframed(self.alloc, error)?))
    }

    /// Whether a node was asked for a frame of this stream, and not answered since.
    pub fn waits_for(&self, stream: i16) -> bool
        ensures { IsTrue result ↔ Waits (state_in self.now) stream }
    {
        match &self.awaited {
            None => false,
            Some(awaited) => awaited.stream == stream,
        }
    }

    /// What is due for a node's answer.
    fn told(&self, answer: &Answer) -> Result<Response, AllocError>
        requires { IsSome (state_in self.now).awaited }
        ensures { IfOk result (ToldAs (state_in self.now) answer.now) }
    {
        match &self.awaited {
            Some(awaited) => answer_of(self.alloc, self.schema, &awaited.wanted, answer),
            None => unreachable!(),
        }
    }

    /// The response to what the node told that was asked for a frame of this stream, as that to a frame. An `Err` leaves the
    /// connection as it was.
    pub fn answer(&mut self, stream: i16, answer: &Answer) -> Result<Response, AllocError>
        requires { Waits (state_in self.old) stream }
        ensures answered { IfOk result (λ response. IsAnswered (state_in self.old) answer.now response (state_in self.new)) }
        ensures no_memory { OnErr result (state_in self.new ≡ state_in self.old) }
    {
        let response = self.told(answer)?;
        self.awaited = None;
        Ok(response)
    }
}
