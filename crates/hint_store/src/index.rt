//! The hints of a table by number and by age.

ghost use Rattle.std.specs.Prelude.{◌≡◌, true, false, OnOk, OnErr};
ghost use Rattle.std.specs.BTreeSet.{contains};
ghost use Rattle.hint_store.specs.Tables.{number_cmp, age_cmp, Gains, HaveSame};

use cs_base::{Micros, NodeId};
use row_change::Hint;
use std::alloc::AllocError;
use std::collections::BTreeSet;

/// By peer and number, and hints of one number by the sequence in which they came.
pub(crate) type ByNumber = BTreeSet<(NodeId, u64, u64)>;

/// The time at which a hint was born, its peer, its number, and its place in the sequence.
pub(crate) type AgeKey = (Micros, NodeId, u64, u64);

pub(crate) type ByAge = BTreeSet<AgeKey>;

/// Puts in a hint with its place in the sequence. An `Err` leaves what was there.
pub(crate) fn enter(
    numbers: &mut ByNumber,
    ages: &mut ByAge,
    hint: &Hint,
    sequence: u64,
) -> Result<(), AllocError>
    requires numbers { contains number_cmp numbers.old (hint.now.peer, hint.now.number, sequence) ≡ false }
    requires ages { contains age_cmp ages.old (hint.now.born, hint.now.peer, hint.now.number, sequence) ≡ false }
    ensures numbers { OnOk result (Gains (hint.now.peer, hint.now.number, sequence) numbers.old.keys numbers.new.keys) }
    ensures ages { OnOk result (Gains (hint.now.born, hint.now.peer, hint.now.number, sequence) ages.old.keys ages.new.keys) }
    ensures same_numbers { OnErr result (HaveSame numbers.old.keys numbers.new.keys) }
    ensures same_ages { OnErr result (HaveSame ages.old.keys ages.new.keys) }
{
    let number = (hint.peer, hint.number, sequence);
    numbers.insert(number)?;
    let Ok(_) = ages.insert((hint.born, hint.peer, hint.number, sequence)) else {
        numbers.remove(&number);
        return Err(AllocError);
    };
    Ok(())
}

/// Takes out a hint with its place in the sequence.
pub(crate) fn leave(numbers: &mut ByNumber, ages: &mut ByAge, hint: &Hint, sequence: u64)
    requires numbers { contains number_cmp numbers.old (hint.now.peer, hint.now.number, sequence) ≡ true }
    requires ages { contains age_cmp ages.old (hint.now.born, hint.now.peer, hint.now.number, sequence) ≡ true }
    ensures numbers { Gains (hint.now.peer, hint.now.number, sequence) numbers.new.keys numbers.old.keys }
    ensures ages { Gains (hint.now.born, hint.now.peer, hint.now.number, sequence) ages.new.keys ages.old.keys }
{
    numbers.remove(&(hint.peer, hint.number, sequence));
    ages.remove(&(hint.born, hint.peer, hint.number, sequence));
}
