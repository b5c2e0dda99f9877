//! The law of scripts in print, which a call gives to its caller.

ghost use Rattle.script_print.specs.Laws.{ReadingUndoesPrinting};

use fault_script::statements_are_read;

/// What is printed of a script that a text is read as is read as this script again, if it is not too long.
pub fn reading_undoes_printing()
    ensures { ReadingUndoesPrinting }
{
    statements_are_read();
}
