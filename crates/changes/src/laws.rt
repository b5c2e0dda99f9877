//! The order of places, what a mutation has of changes of one place, and how lengths add up.

ghost use Rattle.changes.specs.Laws.{BestAreDetermined, BestAreOfEachPlace, LengthsAddUp, PartsAreNoLonger, PlacesAreOrdered};

/// Places have a total order, in which only equal places compare as equal.
pub fn places_are_ordered()
    ensures { PlacesAreOrdered }
{}

/// Of changes in any order, one of each place is made: they are in the order of places, each is one of those given, and each
/// of those given is there or is beaten at its place. No other list has these properties.
pub fn one_change_of_each_place()
    ensures each { BestAreOfEachPlace }
    ensures only { BestAreDetermined }
{}

/// The length of changes is that of its parts, and no part is longer.
pub fn lengths_add_up()
    ensures sum { LengthsAddUp }
    ensures part { PartsAreNoLonger }
{}
