//! Laws of the tokens of a text, which each call of a function of this module gives to its caller.

ghost use Rattle.cql_tokens.specs.Laws.{EachTextHasAScan, OneScan, PrintedTokensAreTheSame, TokensAreWords};

/// Any bytes are blanks, comments and tokens, up to their end or to a place where none of these begins.
pub fn each_text_has_a_scan()
    ensures { EachTextHasAScan }
{}

/// A text has one list of tokens, and stops for one reason at one place.
pub fn one_scan()
    ensures { OneScan }
{}

/// The text of each token is a word of its kind.
pub fn tokens_are_words()
    ensures { TokensAreWords }
{}

/// Tokens that are printed with one blank between each two are the same tokens again.
pub fn printed_tokens_are_the_same()
    ensures { PrintedTokensAreTheSame }
{}
