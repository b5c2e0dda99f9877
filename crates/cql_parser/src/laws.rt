//! Laws of statements, which each call of a function of this module gives to its caller.

ghost use Rattle.cql_parser.specs.Parsing.{NoRefusal, OneReading, OneRefusal};

use cql_tokens::one_scan;

/// A text is at most one statement.
pub fn one_reading()
    ensures { OneReading }
{
    one_scan();
}

/// A text has at most one refusal that isn't want of memory.
pub fn one_refusal()
    ensures { OneRefusal }
{
    one_scan();
}

/// A statement has no refusal but want of memory.
pub fn no_refusal()
    ensures { NoRefusal }
{
    one_scan();
}
