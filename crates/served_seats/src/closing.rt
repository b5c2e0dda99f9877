//! How the passes come back, and the lock is closed.

ghost use Rattle.std.specs.Prelude.{◌≡◌, ◌≢◌, ℕ, ◌+◌, ◌≤◌, [], ◌∷◌, ◌++◌, length, map};
ghost use Rattle.std.specs.List.{All, AllByRecursion, flat_map};
ghost use Rattle.node_lock.specs.Histories.{Replays, StartsWith, entries_by};
ghost use Rattle.node_lock.specs.Passes.{IsPassOf, view_of, start_of, seats_of};
ghost use Rattle.served_seats.specs.Seats.{AreApart, IsOwn, made_by, seats_in};

use node_lock::{History, NodeLock, Pass, Stepper};

/// Closes a lock once its passes are back, and gives its state and the history of its steps.
pub fn close<N: Stepper>(
    lock: NodeLock<N>,
    first: Pass<N>,
    others: Vec<Pass<N>>,
) -> (N, History<N::Entry>)
    requires passes { IsPassOf lock first × All (IsPassOf lock) others.items }
    requires seats { seats_in (map view_of (first ∷ others.items)) ≡ seats_of lock }
    requires apart { AreApart (map view_of (first ∷ others.items)) }
    requires own { AllByRecursion IsOwn (map view_of (first ∷ others.items)) }

    ensures replays { Replays N.steps (start_of lock) result.1 result.0 }
    ensures most { length result.1 ≤ 400000 }

    // Under each number stand just the entries that its pass made, in order, and nothing stands under another number.
    ensures each { AllByRecursion (λ v. entries_by v.number result.1 ≡ made_by v) (map view_of (first ∷ others.items)) }
    ensures none_else { (n : ℕ) → AllByRecursion (λ v. v.number ≢ n) (map view_of (first ∷ others.items)) → entries_by n result.1 ≡ [] }

    // What a pass had seen begins the history.
    ensures seen { AllByRecursion (λ v. StartsWith result.1 v.seen) (map view_of (first ∷ others.items)) }
{
    let whole = join_all(&lock, first, others);
    lock.close(whole)
}

/// Joins the others into the first pass, in order.
fn join_all<N: Stepper>(lock: &NodeLock<N>, first: Pass<N>, others: Vec<Pass<N>>) -> Pass<N>
    requires { IsPassOf lock.now first × All (IsPassOf lock.now) others.items }

    ensures lock { IsPassOf lock.now result }
    ensures seats { (view_of result).seats ≡ seats_in (map view_of (first ∷ others.items)) }
    ensures mine { (view_of result).mine ≡ flat_map (λ v. v.mine) (map view_of (first ∷ others.items)) }
    ensures seen { AllByRecursion (λ v. StartsWith (view_of result).seen v.seen) (map view_of (first ∷ others.items)) }
{
    let mut whole = first;
    for other in others {
        lock.join(&mut whole, other);
    }
    whole
}
