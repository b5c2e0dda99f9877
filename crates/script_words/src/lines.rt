//! The lines of a script, and the words of a line.

ghost use Rattle.std.specs.Prelude.{◌≡◌, ◌<◌, ◌∷◌, ◌++◌, [], length, true, false, Some, None, IfOk, OnOk, MatchOption, option_copied};
ghost use Rattle.std.specs.Option.{option_map};
ghost use Rattle.script_words.specs.Words.{lines_of, is_skipped as is_skipped_line, is_well_formed as is_well_formed_line, some_of, words_in, words_of, without_spaces as without_spaces_of, first_word as first_word_of, behind as behind_of};
ghost use Rattle.script_words.specs.Texts.{texts_of};

use memchr::memchr;
use std::alloc::{AllocError, Global};
use std::str;

/// Room for the words of most lines.
const USUAL_WORDS: usize = 8;

/// The first line of a text that isn't empty, and the text behind it.
pub fn first_line(text: &[u8]) -> (&[u8], &[u8])
    requires { 0 < length text.now }
    ensures lines { lines_of text.now ≡ result.0.now ∷ lines_of result.1.now }
    ensures shorter { length result.1.now < length text.now }
{
    match memchr(b'\n', text) {
        Some(end) => (&text[..end], &text[end + 1..]),
        None => (text, &[]),
    }
}

/// Whether the line is empty or a comment.
pub fn is_skipped(line: &[u8]) -> bool
    ensures { result ≡ is_skipped_line line.now }
{
    match line {
        [] => true,
        [first, ..] => *first == b'#',
    }
}

/// The line as a text, where it is one and has no space at an end.
pub fn well_formed(line: &[u8]) -> Option<&str>
    requires { 0 < length line.now }
    ensures { MatchOption result (is_well_formed_line line.now ≡ false) (λ text. (text.now ≡ line.now) × (is_well_formed_line line.now ≡ true)) }
{
    if line[0] == b' ' || line[line.len() - 1] == b' ' {
        return None;
    }
    let Ok(text) = str::from_utf8(line) else {
        return None;
    };
    Some(text)
}

/// Adds a word, if it is one.
fn push_word<'a>(words: &mut Vec<&'a str>, word: &'a str) -> Result<(), AllocError>
    ensures { OnOk result (texts_of words.new.items ≡ texts_of words.old.items ++ some_of (word.now ∷ [])) }
{
    if !word.is_empty() {
        words.push(word)?;
    }
    Ok(())
}

/// The words that spaces separate.
fn words_between(alloc: Global, text: &str) -> Result<Vec<&str>, AllocError>
    ensures { IfOk result (λ words. texts_of words.items ≡ words_in text.now) }
{
    let mut words = Vec::with_capacity(alloc, USUAL_WORDS)?;
    let bytes = text.as_bytes();
    let mut begin = 0;
    for at in 0..bytes.len() {
        if bytes[at] == b' ' {
            push_word(&mut words, &text[begin..at])?;
            begin = at + 1;
        }
    }
    push_word(&mut words, &text[begin..])?;
    Ok(words)
}

/// The words of a line, or None where it is no text or has a space at an end.
pub fn words(alloc: Global, line: &[u8]) -> Result<Option<Vec<&str>>, AllocError>
    requires { 0 < length line.now }
    ensures { IfOk result (λ words. option_map (λ v. texts_of v.items) words ≡ words_of line.now) }
{
    match well_formed(line) {
        Some(text) => Ok(Some(words_between(alloc, text)?)),
        None => Ok(None),
    }
}

/// The text without the spaces in front of it.
fn without_spaces(text: &str) -> &str
    ensures { result.now ≡ without_spaces_of text.now }
{
    text.trim_start_matches(' ')
}

/// The word in front of the first space, and what stands behind the spaces that follow it.
pub fn first_word(text: &str) -> Option<(&str, &str)>
    ensures { MatchOption result (first_word_of text.now ≡ None) (λ found. first_word_of text.now ≡ Some (found.0.now, found.1.now)) }
{
    let (word, rest) = text.split_once(' ')?;
    Some((word, without_spaces(rest)))
}

/// A text that begins with a word, cut behind the word.
fn behind_word(text: &str) -> (&str, &str)
    requires some { 0 < length text.now }
    requires word { without_spaces_of text.now ≡ text.now }
    ensures { words_in text.now ≡ result.0.now ∷ words_in result.1.now }
{
    match first_word(text) {
        Some((word, rest)) => (word, rest),
        None => (text, ""),
    }
}

/// The first word of a text, and what stands behind it, or None where it has no word. It takes no memory.
pub fn next_word(text: &str) -> Option<(&str, &str)>
    ensures { MatchOption result (words_in text.now ≡ []) (λ found. words_in text.now ≡ found.0.now ∷ words_in found.1.now) }
{
    let text = without_spaces(text);
    if text.is_empty() {
        return None;
    }
    Some(behind_word(text))
}

/// What stands behind this beginning of a line and the spaces that follow it, where the line begins so and the rest is a
/// text.
#[inline]
pub fn behind<'a>(line: &'a [u8], beginning: &[u8]) -> Option<&'a str>
    ensures { option_copied result ≡ behind_of beginning.now line.now }
{
    let rest = line.strip_prefix(beginning)?;
    match str::from_utf8(rest) {
        Ok(text) => Some(without_spaces(text)),
        Err(_) => None,
    }
}
