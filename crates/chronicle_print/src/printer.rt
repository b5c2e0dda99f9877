//! Answers in print, with the numbers of their requests.

ghost use Rattle.std.specs.Prelude.{◌≡◌, OnOk, IfOk, option_copied, reverse};
ghost use Rattle.chronicle_pieces.specs.Pieces.{joined};
ghost use Rattle.chronicle_print.specs.Printed.{IsInPrint};
ghost use Rattle.chronicle_print.specs.Printing.{entry_at as entry_at_place, start_at as start_at_place};

use crate::lines::{push_acked, push_refused, push_stopped, push_tables, push_used};
use crate::requests::{Place, Requests};
use crate::rows::push_rows;
use changes::ShownRow;
use chronicle_pieces::{Halted, Piece, Stepped};
use cs_base::{NodeId, ReqId, Text};
use peer_messages::{Entry, Refusal};
use schema_book::Table;
use std::alloc::{AllocError, Global};

/// What the entries so far made.
#[derive(Drop)]
struct Printer {
    requests: Requests,
    out: Vec<u8>,
}

/// The entry at this place.
fn entry_at(pieces: &[Piece], place: Place) -> Option<&Entry>
    ensures { option_copied result ≡ entry_at_place pieces.now place }
{
    match pieces.get(place.piece) {
        Some(piece) => piece.own().get(place.index),
        None => None,
    }
}

/// The entry at this place, if there is one.
fn start_at(pieces: &[Piece], place: Option<Place>) -> Option<&Entry>
    ensures { option_copied result ≡ start_at_place pieces.now place }
{
    match place {
        Some(place) => entry_at(pieces, place),
        None => None,
    }
}

impl Printer {
    ghost use Rattle.std.specs.Prelude.{ℕ, List, [], Some, slice_get};
    ghost use Rattle.chronicle_pieces.specs.declared.piece.Piece.TheVariants as piece_value;
    ghost use Rattle.chronicle_pieces.specs.Pieces.{entries_of};
    ghost use Rattle.chronicle_print.specs.Printed.{acked_line, used_line, refused_line, tables_line, stopped_line, AreRows};
    ghost use Rattle.chronicle_print.specs.Printing.{number_in, shape_in, IsFresh, Counts, Begins, Notes, Adds, Takes, TakesAll, Starts, EndsStep, EndsHalt, Turns, IsOwn};

    fn new(alloc: Global) -> Printer
        ensures requests { IsFresh result.requests }
        ensures out { result.out.items ≡ [] }
    {
        Printer {
            requests: Requests::new(alloc),
            out: Vec::new(alloc),
        }
    }

    fn ask(&mut self, request: Option<ReqId>) -> Result<(), AllocError>
        ensures { OnOk result (Notes (Counts request) self.old self.new) }
    {
        self.requests.ask(request)?;
        Ok(())
    }

    fn begin(&mut self, request: ReqId, place: Place) -> Result<(), AllocError>
        ensures { OnOk result (Notes (Begins request place) self.old self.new) }
    {
        self.requests.begin(request, place)?;
        Ok(())
    }

    fn acknowledge(&mut self, request: &ReqId) -> Result<(), AllocError>
        ensures { OnOk result (Adds (acked_line (number_in self.old.requests request.now)) self.old self.new) }
    {
        let number = self.requests.number_of(request)?;
        push_acked(&mut self.out, number)
    }

    fn name(&mut self, request: &ReqId, keyspace: &Text) -> Result<(), AllocError>
        ensures { OnOk result (Adds (used_line (number_in self.old.requests request.now) keyspace.now) self.old self.new) }
    {
        let number = self.requests.number_of(request)?;
        push_used(&mut self.out, number, keyspace.as_str())
    }

    fn show(
        &mut self,
        alloc: Global,
        tables: &[Table],
        pieces: &[Piece],
        request: &ReqId,
        rows: &[ShownRow],
    ) -> Result<(), AllocError>
        ensures { OnOk result ((lines : List ℕ) × AreRows tables.now (shape_in pieces.now self.old.requests request.now) (number_in self.old.requests request.now) rows.now lines × Adds lines self.old self.new) }
    {
        let number = self.requests.number_of(request)?;
        let place = self.requests.place_of(request)?;
        let start = start_at(pieces, place);
        push_rows(alloc, &mut self.out, tables, number, start, rows)
    }

    fn refuse(&mut self, request: &ReqId, refusal: Refusal) -> Result<(), AllocError>
        ensures { OnOk result (Adds (refused_line (number_in self.old.requests request.now) refusal) self.old self.new) }
    {
        let number = self.requests.number_of(request)?;
        push_refused(&mut self.out, number, refusal)
    }

    /// Refuses the request that came last.
    fn refuse_last(&mut self, refusal: Refusal) -> Result<(), AllocError>
        ensures { OnOk result (Adds (refused_line self.old.requests.asked refusal) self.old self.new) }
    {
        let number = self.requests.asked();
        push_refused(&mut self.out, number, refusal)
    }

    fn count_tables(&mut self, node: NodeId, count: u32) -> Result<(), AllocError>
        ensures { OnOk result (Adds (tables_line node count) self.old self.new) }
    {
        push_tables(&mut self.out, node, count)
    }

    fn stop(&mut self, node: NodeId) -> Result<(), AllocError>
        ensures { OnOk result (Adds (stopped_line node) self.old self.new) }
    {
        push_stopped(&mut self.out, node)
    }

    fn take(
        &mut self,
        alloc: Global,
        tables: &[Table],
        pieces: &[Piece],
        place: Place,
        entry: &Entry,
    ) -> Result<(), AllocError>
        ensures { OnOk result (Takes tables.now pieces.now place self.old entry.now self.new) }
    {
        match entry {
            Entry::Asked(request) => self.ask(*request),
            Entry::Acked(request, _, _) => self.acknowledge(request),
            Entry::Refused(request, refusal) => self.refuse(request, *refusal),
            Entry::Used(request, keyspace) => self.name(request, keyspace),
            Entry::Began(request, _, _, _) => self.begin(*request, place),
            Entry::Rows(request, rows, _, _) => {
                self.show(alloc, tables, pieces, request, rows.as_slice())
            }
            Entry::Turned(_, refusal) => self.refuse_last(*refusal),
            Entry::Tables(node, count) => self.count_tables(*node, *count),
            Entry::Stopped(node) => self.stop(*node),
            Entry::Submitted(_, _) | Entry::Time(_, _) | Entry::Marks(_, _) => Ok(()),
        }
    }

    /// Takes the own entries of the piece of this number, one after another.
    fn take_own(
        &mut self,
        alloc: Global,
        tables: &[Table],
        pieces: &[Piece],
        piece: usize,
        entries: &[Entry],
    ) -> Result<(), AllocError>
        requires { IsOwn pieces.now piece entries.now }
        ensures { OnOk result (TakesAll tables.now pieces.now entries.now self.old self.new) }
    {
        let mut index = 0;
        for entry in entries {
            let place = Place { piece, index };
            self.take(alloc, tables, pieces, place, entry)?;
            index += 1;
        }
        Ok(())
    }

    /// Counts the request that a step began, if it began one.
    fn start(&mut self, started: Option<ReqId>) -> Result<(), AllocError>
        ensures { OnOk result (Starts started self.old self.new) }
    {
        match started {
            Some(request) => self.ask(Some(request)),
            None => Ok(()),
        }
    }

    /// Tells how many tables there are, where a step tells it.
    fn end_step(&mut self, node: NodeId, tables: Option<u32>) -> Result<(), AllocError>
        ensures { OnOk result (EndsStep node tables self.old self.new) }
    {
        match tables {
            Some(count) => self.count_tables(node, count),
            None => Ok(()),
        }
    }

    /// Tells that the node stopped, if a call of its store failed.
    fn end_halt(&mut self, node: NodeId, has_failed: bool) -> Result<(), AllocError>
        ensures { OnOk result (EndsHalt node has_failed self.old self.new) }
    {
        if has_failed { self.stop(node) } else { Ok(()) }
    }

    fn take_stepped(
        &mut self,
        alloc: Global,
        tables: &[Table],
        pieces: &[Piece],
        number: usize,
        step: &Stepped,
    ) -> Result<(), AllocError>
        requires { slice_get pieces.now number ≡ Some (piece_value.Stepped step.now) }
        ensures { OnOk result (TakesAll tables.now pieces.now (entries_of (piece_value.Stepped step.now)) self.old self.new) }
    {
        self.start(step.started)?;
        self.take_own(alloc, tables, pieces, number, step.entries.as_slice())?;
        self.end_step(step.node, step.tables)?;
        Ok(())
    }

    fn take_halted(
        &mut self,
        alloc: Global,
        tables: &[Table],
        pieces: &[Piece],
        number: usize,
        halt: &Halted,
    ) -> Result<(), AllocError>
        requires { slice_get pieces.now number ≡ Some (piece_value.Halted halt.now) }
        ensures { OnOk result (TakesAll tables.now pieces.now (entries_of (piece_value.Halted halt.now)) self.old self.new) }
    {
        self.start(halt.started)?;
        self.take_own(alloc, tables, pieces, number, halt.entries.as_slice())?;
        self.end_halt(halt.node, halt.has_failed)?;
        Ok(())
    }

    /// Takes a request that its node could not begin.
    fn turn(&mut self, refusal: Refusal) -> Result<(), AllocError>
        ensures { OnOk result (Turns refusal self.old self.new) }
    {
        self.ask(None)?;
        self.refuse_last(refusal)?;
        Ok(())
    }

    /// Takes the piece of this number.
    fn take_piece(
        &mut self,
        alloc: Global,
        tables: &[Table],
        pieces: &[Piece],
        number: usize,
        piece: &Piece,
    ) -> Result<(), AllocError>
        requires { slice_get pieces.now number ≡ Some piece.now }
        ensures { OnOk result (TakesAll tables.now pieces.now (entries_of piece.now) self.old self.new) }
    {
        match piece {
            Piece::Stepped(step) => self.take_stepped(alloc, tables, pieces, number, step),
            Piece::Halted(halt) => self.take_halted(alloc, tables, pieces, number, halt),
            Piece::Turned(_, refusal) => {
                self.turn(*refusal)?;
                Ok(())
            }
            Piece::Failed(node) => {
                self.stop(*node)?;
                Ok(())
            }
        }
    }
}

/// Prints the answers of a chronicle, which comes in pieces with the oldest entry first, for these tables by number. An
/// `Err` is for want of memory.
///
/// Each answer is a line: the number of its request, and `ok`, `rows N`, `keyspace NAME`,
/// `unavailable required A alive B`, `write-timeout received A blockfor B SIMPLE`,
/// `read-timeout received A blockfor B data D` (1 where a replica replied, or else 0), `overloaded`, `down` (the node does
/// not run), or `invalid` and the reason's name. Behind `rows N` come N lines, one a row: a space and the values that the
/// read's statement shows, as CQL literals with ` | ` between them, or `null` for no value. A count is one row with one
/// number.
///
/// Of a node itself two things are told: `tables NODE N`, and `stopped NODE` where its store failed.
///
/// A request's number is its place among all that came, from 1 on. One that its node could not begin has a number too;
/// of an id that came twice the last request counts; an answer to none has the number 0.
pub fn print_chronicle(
    alloc: Global,
    tables: &[Table],
    pieces: &[Piece],
) -> Result<Vec<u8>, AllocError>
    ensures { IfOk result (λ text. IsInPrint tables.now (reverse (joined pieces.now)) text.items) }
{
    let mut printer = Printer::new(alloc);
    let mut number = 0;
    for piece in pieces {
        printer.take_piece(alloc, tables, pieces, number, piece)?;
        number += 1;
    }
    Ok(printer.out)
}
