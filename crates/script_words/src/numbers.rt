//! The numbers of a script, its nodes, its levels, its marks and its outcomes of crashes.

ghost use Rattle.std.specs.Prelude.{◌≡◌, ◌≤◌, true, false, IsTrue, IfSome, MatchOption};
ghost use Rattle.std.specs.Char.{is_ascii_digit};
ghost use Rattle.std.specs.List.{list_all};
ghost use Rattle.script_words.specs.Words.{is_number as is_number_word, is_signed_number as is_signed_word, within as within_bounds, number_within as number_of, node_of as node_of_word, level_of as level_of_word, outcome_of as outcome_of_word, up_of as up_of_word, signed_value, is_long_word};

use cs_base::{Level, NodeId};
use cs_store::Outcome;

fn all_digits(word: &[u8]) -> bool
    ensures { result ≡ list_all is_ascii_digit word.now }
{
    word.iter().all(|b| b.is_ascii_digit())
}

fn is_digits(word: &[u8]) -> bool
    ensures { result ≡ is_number_word word.now }
{
    !word.is_empty() && all_digits(word)
}

/// Whether the word is one or more decimal digits.
pub fn is_number(word: &str) -> bool
    ensures { result ≡ is_number_word word.now }
{
    is_digits(word.as_bytes())
}

/// Whether the word is a number, with or without a minus before it.
pub fn is_signed_number(word: &str) -> bool
    ensures { result ≡ is_signed_word word.now }
{
    match word.as_bytes() {
        [b'-', digits @ ..] => is_digits(digits),
        bytes => is_digits(bytes),
    }
}

fn within(number: u64, least: u64, most: u64) -> Option<u64>
    ensures { result ≡ within_bounds least most number }
{
    if least <= number && number <= most {
        Some(number)
    } else {
        None
    }
}

/// The number, where it is one from `least` to `most`.
pub fn number_within(word: &str, least: u64, most: u64) -> Option<u64>
    requires { IsTrue (is_number_word word.now) }
    ensures value { result ≡ number_of least most word.now }
    ensures bound { IfSome result (λ number. number ≤ most) }
{
    match word.parse::<u64>() {
        Ok(number) => within(number, least, most),
        Err(_) => None,
    }
}

/// The node of this number, where it is one of so many.
pub fn node_of(nodes: u8, word: &str) -> Option<NodeId>
    requires number { IsTrue (is_number_word word.now) }
    requires some { 1 ≤ nodes }
    requires few { nodes ≤ 7 }
    ensures { result ≡ node_of_word nodes word.now }
{
    match number_within(word, 0, u64::from(nodes - 1)) {
        Some(number) => NodeId::new(number as u8),
        None => None,
    }
}

/// The level of this name.
pub fn level_of(word: &str) -> Option<Level>
    ensures { result ≡ level_of_word word.now }
{
    match word {
        "ONE" => Some(Level::One),
        "TWO" => Some(Level::Two),
        "THREE" => Some(Level::Three),
        "QUORUM" => Some(Level::Quorum),
        "ALL" => Some(Level::All),
        "LOCAL_QUORUM" => Some(Level::LocalQuorum),
        "SERIAL" => Some(Level::Serial),
        "LOCAL_SERIAL" => Some(Level::LocalSerial),
        "LOCAL_ONE" => Some(Level::LocalOne),
        _ => None,
    }
}

/// What a crash makes of the writes that were not synced, by its name.
pub fn outcome_of(word: &str) -> Option<Outcome>
    ensures { result ≡ outcome_of_word word.now }
{
    match word {
        "kept" => Some(Outcome::Kept),
        "lost" => Some(Outcome::Lost),
        "torn" => Some(Outcome::Torn),
        _ => None,
    }
}

/// Whether a mark says that the peer is up, by its word.
pub fn up_of(word: &str) -> Option<bool>
    ensures { result ≡ up_of_word word.now }
{
    match word {
        "up" => Some(true),
        "down" => Some(false),
        _ => None,
    }
}

/// The signed number, where it is one of 64 bits.
pub fn long_value(word: &str) -> Option<i64>
    requires { IsTrue (is_signed_word word.now) }
    ensures { MatchOption result (is_long_word word.now ≡ false) (λ z. (z ≡ signed_value word.now) × (is_long_word word.now ≡ true)) }
{
    match word.parse::<i64>() {
        Ok(number) => Some(number),
        Err(_) => None,
    }
}
