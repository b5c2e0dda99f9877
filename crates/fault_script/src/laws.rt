//! Laws of scripts, which each call of a function of this module gives to its caller.

ghost use Rattle.fault_script.specs.Laws.{EventsAreAtNodes, OneReading, ScriptsHaveAnExpiry, ScriptsHaveARing, ScriptsHaveTheirSchema, StatementsAreRead};

/// The tokens of a script are a ring, and its factor is one that the ring has.
pub fn scripts_have_a_ring()
    ensures { ScriptsHaveARing }
{}

/// The time after which a script's messages are too old is within its bounds.
pub fn scripts_have_an_expiry()
    ensures { ScriptsHaveAnExpiry }
{}

/// The nodes that a script names are nodes of its ring.
pub fn events_are_at_nodes()
    ensures { EventsAreAtNodes }
{}

/// The statement of each line `cql` is the one of its text.
pub fn statements_are_read()
    ensures { StatementsAreRead }
{}

/// The statements of the head make the schema.
pub fn scripts_have_their_schema()
    ensures { ScriptsHaveTheirSchema }
{}

/// A text is one script, or is refused for one thing.
pub fn one_reading()
    ensures { OneReading }
{
    cql_parser::one_reading();
    cql_parser::one_refusal();
    cql_parser::no_refusal();
}
