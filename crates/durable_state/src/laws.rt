//! The laws of what is kept.

ghost use Rattle.durable_state.specs.Laws.{DataIsTakenTogether, EachEntryMakesAState, EntriesFollow, KeptIsItself, KeptIsMutual, KeptIsPassedOn, WhatIsKeptIsOne};

/// The same items make of the same state the same state, but for its order, and each change goes on to have one arrival.
pub fn what_is_kept_is_one()
    ensures { WhatIsKeptIsOne }
{}

/// Whatever is kept, an entry makes some state of it.
pub fn each_entry_makes_a_state()
    ensures { EachEntryMakesAState }
{}

/// What two entries make of a state is what the second makes of what the first makes of it.
pub fn entries_follow_each_other()
    ensures { EntriesFollow }
{}

/// Mutations that came at one time may be taken in together, partition by partition.
pub fn data_is_taken_together()
    ensures { DataIsTakenTogether }
{}

/// To keep the same is an equivalence.
pub fn kept_is_an_equivalence()
    ensures itself { KeptIsItself }
    ensures back { KeptIsMutual }
    ensures passed_on { KeptIsPassedOn }
{}
