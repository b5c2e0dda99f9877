//! The store of hints beside a plain list of hints.

use crate::given::{mutation, node, setting};
use cs_base::{Items, Micros, NodeId};
use durable_state::LastNumber;
use hint_store::{Expired, HintStore};
use peer_messages::Setting;
use row_change::Hint;
use std::alloc::{AllocError, Global};
use std::test::Fail;

/// Hints without their mutations, in the order in which they came, and none where one is gone. There is room for more than any
/// run keeps.
type Marks = [Option<Expired>; 48];

/// What is kept, as a list.
#[derive(Clone, Copy)]
struct Plain {
    marks: Marks,
    /// How many marks were made.
    made: usize,
    last: [u64; 7],
}

const NOTHING: Plain = Plain {
    marks: [None; 48],
    made: 0,
    last: [0; 7],
};

impl Plain {
    fn add(&mut self, peer: NodeId, born: Micros, number: u64) {
        if let Some(place) = self.marks.get_mut(self.made) {
            *place = Some(Expired { born, peer, number });
        }
        self.made = self.made.wrapping_add(1);
    }

    fn last(&self, peer: NodeId) -> u64 {
        self.last[usize::from(peer.number())]
    }

    fn add_next(&mut self, peer: NodeId, born: Micros) -> u64 {
        let number = self.last(peer).wrapping_add(1);
        self.last[usize::from(peer.number())] = number;
        self.add(peer, born, number);
        number
    }

    fn done(&mut self, peer: NodeId, number: u64) -> bool {
        let mut kept = false;
        if number <= self.last(peer) {
            for place in &mut self.marks {
                match place {
                    Some(mark) if mark.peer == peer && mark.number == number => {
                        *place = None;
                        kept = true;
                    }
                    _ => {}
                }
            }
        }
        kept
    }
}

/// The next of some numbers below a limit.
fn next(seed: &mut u32, limit: u32) -> u32 {
    *seed = seed.wrapping_mul(1664525).wrapping_add(1013904223);
    if limit == 0 {
        return 0;
    }
    (*seed >> 16) % limit
}

/// The marks of these hints.
fn marks_of(hints: &[Hint]) -> Marks {
    let mut marks = [None; 48];
    for (place, hint) in marks.iter_mut().zip(hints) {
        *place = Some(Expired {
            born: hint.born,
            peer: hint.peer,
            number: hint.number,
        });
    }
    marks
}

/// A peer's own of these.
fn own(marks: &Marks, peer: NodeId) -> Marks {
    let mut own = [None; 48];
    let mut count = 0usize;
    for mark in marks.iter().flatten() {
        if mark.peer == peer {
            if let Some(place) = own.get_mut(count) {
                *place = Some(*mark);
            }
            count = count.wrapping_add(1);
        }
    }
    own
}

/// The first of a peer's own that a store sends.
fn sent(
    alloc: Global,
    setting: &Setting,
    store: &HintStore,
    peer: NodeId,
) -> Result<Marks, AllocError> {
    let hints = store.first(alloc, setting, peer)?;
    Ok(marks_of(hints.as_slice()))
}

/// Whether a store tells of a peer what the list has.
fn tells_own(
    alloc: Global,
    setting: &Setting,
    store: &HintStore,
    plain: &Plain,
    peer: NodeId,
) -> Result<bool, AllocError> {
    let expected = own(&plain.marks, peer);
    let all = marks_of(store.to_items(alloc)?.as_slice());
    let mut same = own(&all, peer) == expected;
    same &= sent(alloc, setting, store, peer)? == expected;
    same &= store.last(peer) == plain.last(peer);
    same &= !store.is_full(peer);
    for number in 0..12 {
        let mut plain = *plain;
        same &= store.is_kept(peer, number) == plain.done(peer, number);
    }
    Ok(same)
}

/// Whether these are the marks that were born before a time, each once, in order.
fn are_older(older: &[Expired], marks: &Marks, time: Micros) -> bool {
    let mut same = true;
    let mut before = None;
    for mark in older {
        let key = Some((mark.born, mark.peer, mark.number));
        same &= before < key;
        same &= marks.contains(&Some(*mark));
        before = key;
    }
    for mark in marks.iter().flatten() {
        same &= older.contains(mark) == (mark.born < time);
    }
    same
}

/// Whether a store tells what the list has that was born before a time.
fn tells_older(
    alloc: Global,
    store: &HintStore,
    plain: &Plain,
    time: u64,
) -> Result<bool, AllocError> {
    let expiry = Micros::new(7);
    let now = Micros::new(time.wrapping_add(7));
    let older = store.expired(alloc, expiry, now)?;
    let mut same = are_older(older.as_slice(), &plain.marks, Micros::new(time));
    same &= store.has_expired(expiry, now) != older.as_slice().is_empty();
    Ok(same)
}

/// Whether a store tells of each peer what the list has, and of times before, between and after the births.
fn tells_all(
    alloc: Global,
    setting: &Setting,
    store: &HintStore,
    plain: &Plain,
) -> Result<bool, AllocError> {
    let mut same = true;
    for last in store.last_numbers(alloc)?.as_slice() {
        same &= last.last == plain.last(last.peer);
    }
    for number in 0..7 {
        same &= tells_own(alloc, setting, store, plain, node(number))?;
        same &= tells_older(alloc, store, plain, u64::from(number))?;
    }
    Ok(same)
}

/// Adds a hint of this table, and gives its number.
fn add(
    alloc: Global,
    store: &mut HintStore,
    peer: NodeId,
    born: Micros,
    table: u16,
) -> Result<Option<u64>, AllocError> {
    store.add(peer, born, mutation(alloc, table, "")?)
}

/// Adds a hint to both, or takes one away.
fn change(
    alloc: Global,
    seed: &mut u32,
    store: &mut HintStore,
    plain: &mut Plain,
) -> Result<bool, AllocError> {
    let peer = node((next(seed, 3) % 3) as u8);
    if next(seed, 2) == 0 {
        let born = Micros::new(u64::from(next(seed, 5)));
        let given = Some(plain.add_next(peer, born));
        return Ok(add(alloc, store, peer, born, 0)? == given);
    }
    let number = u64::from(next(seed, 8));
    Ok(plain.done(peer, number) == store.done(peer, number)?)
}

/// Whether a store does what the list does through a step that is settled or undone.
fn keeps_on_once(
    alloc: Global,
    setting: &Setting,
    seed: &mut u32,
    store: &mut HintStore,
    plain: &mut Plain,
) -> Result<bool, AllocError> {
    let before = *plain;
    let mut same = true;
    for _ in 0..3 {
        same &= change(alloc, seed, store, plain)?;
    }
    same &= tells_all(alloc, setting, store, plain)?;
    if next(seed, 2) == 0 {
        store.settle();
    } else {
        store.back();
        *plain = before;
    }
    same &= tells_all(alloc, setting, store, plain)?;
    Ok(same)
}

/// Whether it does so through all steps.
fn keeps_on(
    alloc: Global,
    setting: &Setting,
    seed: u32,
    store: &mut HintStore,
    plain: &mut Plain,
) -> Result<bool, AllocError> {
    let mut seed = seed;
    let mut same = tells_all(alloc, setting, store, plain)?;
    for _ in 0..12 {
        same &= keeps_on_once(alloc, setting, &mut seed, store, plain)?;
    }
    Ok(same)
}

/// Numbers and births in any order, and repeated, some of the numbers above the last one.
const FOUND: [(u64, u64); 5] = [(4, 3), (2, 3), (2, 1), (7, 0), (2, 3)];

fn found_hints(alloc: Global) -> Result<Items<Hint>, AllocError> {
    let mut hints = Items::new(alloc);
    for &(number, born) in &FOUND {
        hints.push(Hint {
            peer: NodeId::FIRST,
            number,
            born: Micros::new(born),
            mutation: mutation(alloc, 0, "")?,
        })?;
    }
    Ok(hints)
}

/// The list of what a load found: hints of node 0, and its last number twice, of which the first counts.
fn found() -> Plain {
    let mut plain = NOTHING;
    for &(number, born) in &FOUND {
        plain.add(NodeId::FIRST, Micros::new(born), number);
    }
    plain.last[0] = 5;
    plain
}

fn keeps_on_from_nothing(alloc: Global, setting: &Setting, seed: u32) -> Result<bool, AllocError> {
    let mut plain = NOTHING;
    keeps_on(alloc, setting, seed, &mut HintStore::new(alloc), &mut plain)
}

fn keeps_on_from_a_load(alloc: Global, setting: &Setting, seed: u32) -> Result<bool, AllocError> {
    let peer = NodeId::FIRST;
    let numbers = [LastNumber { peer, last: 5 }, LastNumber { peer, last: 9 }];
    let mut store = HintStore::restore(alloc, found_hints(alloc)?, &numbers)?;
    keeps_on(alloc, setting, seed, &mut store, &mut found())
}

/// Whether a store does what a list does, where it begins with nothing, and where it begins with what a load found.
fn keeps_what_a_list_keeps(alloc: Global) -> Result<bool, AllocError> {
    let setting = setting(alloc)?;
    let mut same = true;
    for seed in 0..6 {
        same &= keeps_on_from_nothing(alloc, &setting, seed)?;
        same &= keeps_on_from_a_load(alloc, &setting, seed)?;
    }
    Ok(same)
}

/// Whether a store takes as many hints of node 0 as there is room for, by rising numbers, and none more.
fn is_filled(alloc: Global, store: &mut HintStore) -> Result<bool, AllocError> {
    let mut same = true;
    for number in 0..65_536u64 {
        same &= add(alloc, store, NodeId::FIRST, Micros::new(1), 0)?
            == Some(number.wrapping_add(1));
    }
    same &= store.is_full(NodeId::FIRST);
    same &= add(alloc, store, NodeId::FIRST, Micros::new(1), 0)?.is_none();
    Ok(same)
}

/// Whether it then sends 64 of them, has room again where the first one is gone, and has nothing where all is undone.
fn is_filled_and_emptied(
    alloc: Global,
    setting: &Setting,
    store: &mut HintStore,
) -> Result<bool, AllocError> {
    let mut same = is_filled(alloc, store)?;
    same &= store.first(alloc, setting, NodeId::FIRST)?.as_slice().len() == 64;
    same &= store.done(NodeId::FIRST, 1)?;
    same &= !store.is_full(NodeId::FIRST);
    store.back();
    same &= store.last(NodeId::FIRST) == 0;
    Ok(same)
}

/// Whether of a hint of an unknown table and one of a known one just the second is sent.
fn sends_the_known(
    alloc: Global,
    setting: &Setting,
    store: &mut HintStore,
) -> Result<bool, AllocError> {
    add(alloc, store, NodeId::FIRST, Micros::new(1), 2)?;
    add(alloc, store, NodeId::FIRST, Micros::new(1), 0)?;
    let mut plain = NOTHING;
    plain.add(NodeId::FIRST, Micros::new(1), 2);
    Ok(sent(alloc, setting, store, NodeId::FIRST)? == plain.marks)
}

#[test]
fn keeps_what_a_plain_list_keeps(rt: HostRuntime) -> Result<(), Fail> {
    assert!(rt; keeps_what_a_list_keeps(rt.alloc())?);
    Ok(())
}

/// Whether a store takes no more than a peer may have, and sends hints of known tables once all that is undone.
fn takes_and_sends(alloc: Global) -> Result<bool, AllocError> {
    let setting = setting(alloc)?;
    let mut store = HintStore::new(alloc);
    let takes = is_filled_and_emptied(alloc, &setting, &mut store)?;
    let sends = sends_the_known(alloc, &setting, &mut store)?;
    Ok(takes & sends)
}

#[test]
fn takes_no_more_than_a_peer_may_have_and_sends_hints_of_known_tables(
    rt: HostRuntime,
) -> Result<(), Fail> {
    assert!(rt; takes_and_sends(rt.alloc())?);
    Ok(())
}
