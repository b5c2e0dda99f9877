//! The steps on the lock's words, and one turn.

ghost use Rattle.std.specs.Prelude.{◌≡◌, ◌≢◌, ℕ, ◌+◌, ◌%◌, ◌^◌, ◌<◌, ◌≤◌, List, [], ◌∷◌, ◌++◌, length, None, Some, IfOk, IfErr};
ghost use Rattle.node_lock.specs.Held.{log_of, IsHeld, Makes, Stops};
ghost use Rattle.node_lock.specs.Histories.{StartsWith, entries_by};
ghost use Rattle.node_lock.specs.Rules.{shown, waiting, holding, giving, publishing, resting, asking, left_of, right_of, both_of, learning, Takes};
ghost use Rattle.node_lock.specs.Stepped.{IsSamePass, Finds, Steps, Declines};
ghost use Rattle.node_lock.specs.declared.view.Stage.TheVariants.{Waiting, Holding, Giving};

use crate::answers::{LockRefused, Receipt};
use crate::held::Held;
use crate::history::MOST_ENTRIES;
use crate::plays::{Advances, Asks, Both, Draws, Gives, Halves, Learns, Looks, Publishes};
use crate::stepper::Stepper;
use crate::wait::{rest, wake};
use crate::words::{COUNT, LockSeat, LockShared, SERVING, TICKET};
use std::sync::Wait;

// Takes a ticket, and gives its number, which wraps.
fn draw<N: Stepper>(shared: &LockShared<N, N::Entry>, seat: &mut LockSeat<N, N::Entry>) -> u64
    requires table { (seat.old.table_id ≡ shared.now.table_id) × (shared.now.table_id.words ≡ 3) × (shared.now.table_id.slots ≡ 1) }
    requires seat { (seat.old.me.0.tickets ≡ 0) × (0 < seat.old.me.0.seats) }
    ensures seat { (seat.new.table_id ≡ seat.old.table_id) × (seat.new.id ≡ seat.old.id) }
    ensures drawn { (t : ℕ) × (t % 2 ^ 64 ≡ result) × (seat.new.me ≡ (waiting seat.old.me.0 t, seat.old.me.1)) }
{
    shared.fetch_add::<Draws>(seat, TICKET, 1)
}

// Takes what lies in the slot that the seat has.
fn lift<N: Stepper>(
    shared: &LockShared<N, N::Entry>,
    seat: &mut LockSeat<N, N::Entry>,
) -> Held<N, N::Entry>
    requires table { seat.old.table_id ≡ shared.now.table_id }
    requires seat { (h : _) × (seat.old.me.1 ≡ (0, Some h) ∷ []) }
    ensures seat { (seat.new.table_id ≡ seat.old.table_id) × (seat.new.id ≡ seat.old.id) × (seat.new.me ≡ (seat.old.me.0, (0, None) ∷ [])) }
    ensures held { seat.old.me.1 ≡ (0, Some result) ∷ [] }
{
    shared.exchange(seat, 0, None).unwrap()
}

// Waits until the ticket is served, and takes what is locked.
fn wait_turn<N: Stepper, R: Wait>(
    rt: &R,
    shared: &LockShared<N, N::Entry>,
    seat: &mut LockSeat<N, N::Entry>,
    ticket: u64,
) -> Held<N, N::Entry>
    requires table { (seat.old.table_id ≡ shared.now.table_id) × (shared.now.table_id.words ≡ 3) × (shared.now.table_id.slots ≡ 1) }
    requires seat { (seat.old.me.1 ≡ []) × (seat.old.me.0.tickets ≡ 1) × (seat.old.me.0.stage ≡ Waiting) × (0 < seat.old.me.0.owned) }
    requires ticket { seat.old.me.0.ticket % 2 ^ 64 ≡ ticket }
    ensures seat { (seat.new.table_id ≡ seat.old.table_id) × (seat.new.id ≡ seat.old.id) }
    ensures held { (seat.new.me ≡ (holding seat.old.me.0 (log_of result), (0, None) ∷ [])) × Takes N.steps seat.old.me.0 result }
{
    let mut looks: u32 = 0;
    for _ in rt.forever() {
        let serving = shared.load::<Looks<N>>(seat, SERVING);
        if serving == ticket {
            return lift(shared, seat);
        }
        rest(rt, shared, looks, serving);
        looks = looks.saturating_add(1);
    }
    unreachable!()
}

// Gives what is locked back. The seat still has the turn.
fn give_back<N: Stepper>(
    shared: &LockShared<N, N::Entry>,
    seat: &mut LockSeat<N, N::Entry>,
    held: Held<N, N::Entry>,
)
    requires table { (seat.old.table_id ≡ shared.now.table_id) × (shared.now.table_id.words ≡ 3) × (shared.now.table_id.slots ≡ 1) }
    requires seat { (seat.old.me.1 ≡ (0, None) ∷ []) × (seat.old.me.0.tickets ≡ 1) × (seat.old.me.0.stage ≡ Holding) }
    requires held { (more : List _) × IsHeld N.steps seat.old.me.0.start (seat.old.me.0.seen ++ more) held × ((n : ℕ) → n ≢ seat.old.me.0.number → entries_by n more ≡ []) }
    ensures seat { (seat.new.table_id ≡ seat.old.table_id) × (seat.new.id ≡ seat.old.id) }
    ensures given { (more : List _) → log_of held ≡ seat.old.me.0.seen ++ more → seat.new.me ≡ (giving seat.old.me.0 more, []) }
{
    drop(shared.exchange(seat, 0, Some(held)));
    shared.load::<Gives>(seat, SERVING);
}

// The entry that was given back is now in the published history.
fn publish<N: Stepper>(
    shared: &LockShared<N, N::Entry>,
    seat: &mut LockSeat<N, N::Entry>,
    count: u64,
)
    requires table { (seat.old.table_id ≡ shared.now.table_id) × (shared.now.table_id.words ≡ 3) }
    requires seat { (seat.old.me.0.tickets ≡ 1) × (seat.old.me.0.stage ≡ Giving) × (0 < seat.old.me.0.owned) }
    requires count { count ≡ length (seat.old.me.0.seen ++ seat.old.me.0.pending) }
    ensures seat { (seat.new.table_id ≡ seat.old.table_id) × (seat.new.id ≡ seat.old.id) }
    ensures published { seat.new.me ≡ (publishing seat.old.me.0, seat.old.me.1) }
    ensures once { entries_by seat.old.me.0.number (seat.old.me.0.seen ++ seat.old.me.0.pending) ≡ entries_by seat.old.me.0.number (seat.old.me.0.mine ++ seat.old.me.0.pending) }
{
    shared.store::<Publishes>(seat, COUNT, count);
}

// The next ticket is served.
fn advance<N: Stepper>(shared: &LockShared<N, N::Entry>, seat: &mut LockSeat<N, N::Entry>)
    requires table { (seat.old.table_id ≡ shared.now.table_id) × (shared.now.table_id.words ≡ 3) }
    requires seat { (seat.old.me.0.tickets ≡ 1) × (seat.old.me.0.stage ≡ Giving) × (seat.old.me.0.pending ≡ []) }
    ensures seat { (seat.new.table_id ≡ seat.old.table_id) × (seat.new.id ≡ seat.old.id) }
    ensures rests { seat.new.me ≡ (resting seat.old.me.0, seat.old.me.1) }
{
    let served = shared.fetch_add::<Advances>(seat, SERVING, 1);
    wake(shared, served.wrapping_add(1));
}

// One step of the state, with its entry.
fn make<N: Stepper>(
    held: &mut Held<N, N::Entry>,
    number: u32,
    event: N::Event,
) -> Result<Receipt<N::Reply>, LockRefused<N::Event>>
    ensures ok { IfOk result (λ r. Makes N.steps N.event_of N.reply_of held.old number event r held.new) }
    ensures err { IfErr result (λ f. (held.new.state ≡ held.old.state) × (log_of held.new ≡ log_of held.old) × Stops N.refuses held.old event f) }
{
    let place = held.history.len();
    if place >= MOST_ENTRIES {
        return Err(LockRefused::Full(event));
    }
    match held.state.step(event) {
        Ok((entry, reply)) => {
            held.history.push(number, entry);
            Ok(Receipt { place, reply })
        }
        Err(event) => Err(LockRefused::Refused(event)),
    }
}

// One turn: a ticket, the slot, a step of the state, and the next one's turn.
pub(crate) fn take_turn<N: Stepper, R: Wait>(
    rt: &R,
    shared: &LockShared<N, N::Entry>,
    seat: &mut LockSeat<N, N::Entry>,
    number: u32,
    event: N::Event,
) -> Result<Receipt<N::Reply>, LockRefused<N::Event>>
    requires table { (seat.old.table_id ≡ shared.now.table_id) × (shared.now.table_id.words ≡ 3) × (shared.now.table_id.slots ≡ 1) }
    requires seat { (seat.old.me.1 ≡ []) × (seat.old.me.0.tickets ≡ 0) × (0 < seat.old.me.0.seats) }
    requires number { (seat.old.me.0.number ≡ number) × (0 < seat.old.me.0.owned) }
    requires start { seat.old.me.0.start ≡ Some shared.now.key.state.value }
    ensures seat { (seat.new.table_id ≡ seat.old.table_id) × (seat.new.id ≡ seat.old.id) }
    ensures rests { (seat.new.me.1 ≡ []) × (seat.new.me.0.tickets ≡ 0) }
    ensures start { seat.new.me.0.start ≡ seat.old.me.0.start }
    ensures pass { IsSamePass (shown seat.old.me.0) (shown seat.new.me.0) }
    ensures ok { IfOk result (λ r. Steps N.steps N.event_of N.reply_of shared.now.key.state.value (shown seat.old.me.0) event r (shown seat.new.me.0)) }
    ensures err { IfErr result (λ f. Finds (shown seat.old.me.0) (shown seat.new.me.0) × Declines N.steps N.refuses shared.now.key.state.value event f seat.new.me.0.seen) }
{
    let ticket = draw(shared, seat);
    let mut held = wait_turn(rt, shared, seat, ticket);
    match make(&mut held, number, event) {
        Ok(receipt) => {
            give_back(shared, seat, held);
            publish(shared, seat, receipt.place + 1);
            advance(shared, seat);
            Ok(receipt)
        }
        Err(refused) => {
            give_back(shared, seat, held);
            advance(shared, seat);
            Err(refused)
        }
    }
}

// Cuts the last numbers off, and as many seats.
pub(crate) fn hand_over<N: Stepper>(
    shared: &LockShared<N, N::Entry>,
    seat: &mut LockSeat<N, N::Entry>,
    seats: u64,
) -> LockSeat<N, N::Entry>
    requires table { (seat.old.table_id ≡ shared.now.table_id) × (shared.now.table_id.words ≡ 3) }
    requires seat { (seat.old.me.0.tickets ≡ 0) × (seat.old.me.0.owned ≤ seat.old.me.0.seats) }
    requires seats { (0 < seats) × (seats < seat.old.me.0.owned) }
    ensures seat { (seat.new.table_id ≡ seat.old.table_id) × (seat.new.id ≡ seat.old.id) × (result.table_id ≡ seat.old.table_id) }
    ensures halves { (seat.new.me ≡ (left_of (asking seat.old.me.0 seats), seat.old.me.1)) × (result.me ≡ (right_of (asking seat.old.me.0 seats), [])) }
{
    shared.compare_exchange::<Asks>(seat, TICKET, seats, seats);
    shared.split_seat::<Halves>(seat)
}

// Takes in another seat's view.
pub(crate) fn take_in<N: Stepper>(
    shared: &LockShared<N, N::Entry>,
    seat: &mut LockSeat<N, N::Entry>,
    other: LockSeat<N, N::Entry>,
)
    requires table { (seat.old.table_id ≡ shared.now.table_id) × (other.table_id ≡ shared.now.table_id) × (shared.now.table_id.words ≡ 3) }
    requires seats { (seat.old.me.0.tickets ≡ 0) × (other.me.0.tickets ≡ 0) × (0 < seat.old.me.0.seats) × (other.me.1 ≡ []) }
    ensures seat { (seat.new.table_id ≡ seat.old.table_id) × (seat.new.id ≡ seat.old.id) }
    ensures both { seat.new.me ≡ (learning (both_of seat.old.me.0 other.me.0), seat.old.me.1) }
    ensures seen { StartsWith seat.new.me.0.seen seat.old.me.0.seen × StartsWith seat.new.me.0.seen other.me.0.seen }
{
    shared.join_seat::<Both>(seat, other);
    shared.load::<Learns>(seat, TICKET);
}
