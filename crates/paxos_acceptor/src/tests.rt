//! A row through a few messages, with answers that were worked out by hand.

use crate::{
    Vote, accept, commit, copy_row, copy_update, fresh, keep_commit, prepare, promise, take,
};
use changes::{Held, Place};
use cs_base::{Ballot, Items, Micros, NodeId, ReqId};
use row_change::{PaxosRow, Update};
use std::alloc::{AllocError, Global};
use std::test::Fail;

/// What comes to an acceptor.
#[derive(Clone, Copy)]
enum Heard {
    Prepare(u64),
    Propose(u64),
    Commit(u64),
}

/// What it answers: a ballot is promised, is the promise's ballot ahead of it; a vote; whether a commit is newer.
#[derive(Clone, Copy, Debug, PartialEq, Eq)]
enum Answer {
    Promised,
    Ahead(u64),
    Vote(Vote),
    Newer(bool),
}

fn request() -> ReqId {
    ReqId {
        node: NodeId::FIRST,
        time: Micros::new(4),
    }
}

/// An update of one change, the deletion of a whole partition.
fn update(alloc: Global) -> Result<Update, AllocError> {
    let mut changes = Vec::with_capacity(alloc, 1)?;
    changes.push(Held {
        place: Place::PartGone,
        value: None,
        timestamp: 5,
        submitted: Micros::new(4),
        request: request(),
    })?;
    Ok(Update {
        request: request(),
        base: Ballot::new(0),
        changes: Items::from_vec(changes),
    })
}

fn hear_prepare(row: &mut PaxosRow, ballot: Ballot) -> Answer {
    match prepare(row, ballot) {
        Ok(()) => {
            promise(row, ballot);
            Answer::Promised
        }
        Err(refused) => Answer::Ahead(refused.kept.number()),
    }
}

fn hear_proposal(row: &mut PaxosRow, ballot: Ballot, update: Update) -> Answer {
    let vote = accept(row, ballot);
    if let Vote::Take = vote {
        take(row, ballot, update);
    }
    Answer::Vote(vote)
}

fn hear_commit(row: &mut PaxosRow, ballot: Ballot, update: Update) -> Answer {
    let newer = commit(row, ballot);
    keep_commit(row, ballot, update);
    Answer::Newer(newer)
}

fn hear(alloc: Global, row: &mut PaxosRow, heard: Heard) -> Result<Answer, AllocError> {
    match heard {
        Heard::Prepare(ballot) => Ok(hear_prepare(row, Ballot::new(ballot))),
        Heard::Propose(ballot) => Ok(hear_proposal(row, Ballot::new(ballot), update(alloc)?)),
        Heard::Commit(ballot) => Ok(hear_commit(row, Ballot::new(ballot), update(alloc)?)),
    }
}

fn refused(kept: u64) -> Answer {
    Answer::Vote(Vote::Refused(Ballot::new(kept)))
}

#[test]
fn proposal_that_comes_twice_with_a_higher_promise_between_is_accepted_again(
    rt: HostRuntime,
) -> Result<(), Fail> {
    let mut row = fresh();
    for (heard, answer) in [
        (Heard::Prepare(9), Answer::Promised),
        (Heard::Propose(9), Answer::Vote(Vote::Take)),
        (Heard::Prepare(16), Answer::Promised),
        (Heard::Propose(9), Answer::Vote(Vote::Again)),
    ] {
        assert_eq!(rt; hear(rt.alloc(), &mut row, heard)?, answer);
    }
    assert_eq!(rt; row.promised.number(), 16);
    Ok(())
}

/// Ballots 9, 17, 25 and 33 are node 1's, 10 and 26 node 2's, 32 is node 0's, and 15 and 39 are nobody's.
#[test]
fn each_message_is_answered(rt: HostRuntime) -> Result<(), Fail> {
    let mut row = fresh();
    for (heard, answer) in [
        (Heard::Propose(9), Answer::Vote(Vote::Take)),
        (Heard::Propose(17), Answer::Vote(Vote::Take)),
        (Heard::Prepare(17), Answer::Ahead(17)),
        (Heard::Prepare(32), Answer::Promised),
        (Heard::Propose(9), Answer::Vote(Vote::Silent)),
        (Heard::Propose(17), Answer::Vote(Vote::Again)),
        (Heard::Propose(25), refused(32)),
        (Heard::Propose(10), refused(32)),
        (Heard::Propose(15), Answer::Vote(Vote::Silent)),
        (Heard::Propose(39), Answer::Vote(Vote::Silent)),
        (Heard::Propose(32), Answer::Vote(Vote::Take)),
        (Heard::Propose(32), Answer::Vote(Vote::Take)),
        (Heard::Propose(33), Answer::Vote(Vote::Take)),
        (Heard::Propose(32), Answer::Vote(Vote::Again)),
        (Heard::Commit(0), Answer::Newer(false)),
        (Heard::Commit(17), Answer::Newer(true)),
        (Heard::Commit(9), Answer::Newer(false)),
        (Heard::Commit(17), Answer::Newer(false)),
        (Heard::Commit(33), Answer::Newer(true)),
    ] {
        assert_eq!(rt; hear(rt.alloc(), &mut row, heard)?, answer);
    }
    Ok(())
}

#[test]
fn copies_are_equal(rt: HostRuntime) -> Result<(), Fail> {
    let update = update(rt.alloc())?;
    let mut row = fresh();
    take(&mut row, Ballot::new(9), copy_update(rt.alloc(), &update)?);
    keep_commit(&mut row, Ballot::new(9), update);
    let copy = copy_row(rt.alloc(), &row)?;
    let printed = format!(in rt.alloc(); "{row:?}")?;
    assert_eq!(rt;
        format!(in rt.alloc(); "{copy:?}")?.as_str(),
        printed.as_str()
    );
    Ok(())
}
