//! The lines of the head.

ghost use Rattle.std.specs.Prelude.{◌≡◌, ◌≤◌, Bool, true, false, ◌&&◌, ◌<◌, codes, map, length, IsTrue, IfOk, IfErr, OnErr, MatchOption, MatchResult};
ghost use Rattle.std.specs.List.{list_all};
ghost use Rattle.std.specs.Str.{bytes_eq};
ghost use Rattle.script_words.specs.Words.{is_number as is_number_word, is_signed_number as is_signed_word, is_long_word, signed_value};
ghost use Rattle.fault_script.specs.Lines.{are_apart, are_tokens as are_token_words, version_line as version_line_of, ring_line as ring_line_of, factor_line as factor_line_of, first_settings as first_settings_of, is_first as is_first_word, grace_line as grace_line_of, expiry_line as expiry_line_of, run_line as run_line_of, later_line as later_line_of, option_line as option_line_of, head_words as head_words_of, statement_at as statement_at_of, head_line as head_line_of};
ghost use Rattle.script_words.specs.Texts.{texts_of};
ghost use Rattle.fault_script.specs.Reads.{LineGives};

use crate::script::{Fault, HeadLine, HeadStage, LineError, Settings};
use cs_base::Text;
use script_words::{behind, is_number, is_signed_number, long_value, number_within, words};
use std::alloc::{AllocError, Global};
use token_ring::{MOST_NODES, Ring};

/// How long deletions are kept without a line `grace`, in seconds: ten days.
const GRACE: u64 = 864_000;

const MOST_GRACE: u64 = 100_000_000;

/// After how many seconds a message is too old without a line `expiry`: three hours.
const EXPIRY: u64 = 10_800;

const LEAST_EXPIRY: u64 = 1_000;

const MOST_EXPIRY: u64 = 100_000;

fn is_version(word: &str, version: &str) -> bool
    ensures { result ≡ (bytes_eq word.now (codes "cassandra-script") && bytes_eq version.now (codes "1")) }
{
    word == "cassandra-script" && version == "1"
}

fn version_line(words: &[&str]) -> Result<HeadStage, Fault>
    ensures { result ≡ version_line_of (texts_of words.now) }
{
    match words {
        [word, version] if is_version(word, version) => Ok(HeadStage::Ring),
        _ => Err(Fault::Head),
    }
}

fn all_signed(words: &[&str]) -> bool
    ensures { result ≡ list_all is_signed_word (texts_of words.now) }
{
    words.iter().all(|word| is_signed_number(word))
}

/// Whether there are one to seven signed numbers.
fn are_tokens(words: &[&str]) -> bool
    ensures { result ≡ are_token_words (texts_of words.now) }
{
    !words.is_empty() && words.len() <= MOST_NODES && all_signed(words)
}

/// The tokens, where each is one of 64 bits.
fn tokens_of(alloc: Global, words: &[&str]) -> Result<Option<Vec<i64>>, AllocError>
    requires { IsTrue (list_all is_signed_word (texts_of words.now)) }
    ensures { IfOk result (λ tokens. MatchOption tokens
        (list_all is_long_word (texts_of words.now) ≡ false)
        (λ tokens. (tokens.items ≡ map signed_value (texts_of words.now)) × (list_all is_long_word (texts_of words.now) ≡ true))) }
{
    let mut tokens = Vec::new(alloc);
    for word in words {
        let Some(token) = long_value(word) else {
            return Ok(None);
        };
        tokens.push(token)?;
    }
    Ok(Some(tokens))
}

/// The ring of these tokens, where no token stands twice.
fn ring_of(tokens: &[i64]) -> Result<Ring, Fault>
    requires some { 1 ≤ length tokens.now }
    requires few { length tokens.now ≤ 7 }
    ensures { MatchResult result (λ ring. (ring ≡ tokens.now) × (are_apart tokens.now ≡ true)) (λ e. (e ≡ Fault.Head) × (are_apart tokens.now ≡ false)) }
{
    match Ring::new(tokens) {
        Ok(ring) => Ok(ring),
        Err(_) => Err(Fault::Head),
    }
}

fn ring_line(alloc: Global, words: &[&str]) -> Result<HeadStage, LineError>
    ensures { LineGives result (ring_line_of (texts_of words.now)) }
{
    let [word, tokens @ ..] = words else {
        return Err(LineError::Fault(Fault::Head));
    };
    if *word != "ring" || !are_tokens(tokens) {
        return Err(LineError::Fault(Fault::Head));
    }
    let Some(tokens) = tokens_of(alloc, tokens)? else {
        return Err(LineError::Fault(Fault::Number));
    };
    Ok(HeadStage::Factor(ring_of(&tokens)?))
}

fn is_factor(word: &str, factor: &str) -> bool
    ensures { result ≡ (bytes_eq word.now (codes "rf") && is_number_word factor.now) }
{
    word == "rf" && is_number(factor)
}

/// What holds without a line `grace` or `expiry`.
fn first_settings(ring: &Ring, factor: u8) -> Settings
    ensures { result ≡ first_settings_of ring.now factor }
{
    Settings {
        ring: *ring,
        factor,
        grace: GRACE,
        expiry: EXPIRY,
    }
}

fn factor_line(ring: &Ring, words: &[&str]) -> Result<HeadStage, Fault>
    ensures { result ≡ factor_line_of ring.now (texts_of words.now) }
{
    let [word, factor] = words else {
        return Err(Fault::Head);
    };
    if !is_factor(word, factor) {
        return Err(Fault::Head);
    }
    match number_within(factor, 1, u64::from(ring.nodes())) {
        Some(factor) => Ok(HeadStage::Grace(first_settings(ring, factor as u8))),
        None => Err(Fault::Number),
    }
}

/// Whether the first word is this.
fn is_first(first: &str, words: &[&str]) -> bool
    ensures { result ≡ is_first_word first.now (texts_of words.now) }
{
    match words {
        [word, ..] => *word == first,
        [] => false,
    }
}

/// The line `grace`, whose first word is known.
fn grace_line(settings: &Settings, words: &[&str]) -> Result<HeadStage, Fault>
    ensures { result ≡ grace_line_of settings.now (texts_of words.now) }
{
    let [_, seconds] = words else {
        return Err(Fault::Head);
    };
    if !is_number(seconds) {
        return Err(Fault::Head);
    }
    match number_within(seconds, 0, MOST_GRACE) {
        Some(grace) => Ok(HeadStage::Expiry(Settings { grace, ..*settings })),
        None => Err(Fault::Number),
    }
}

/// The line `expiry`, whose first word is known.
fn expiry_line(settings: &Settings, words: &[&str]) -> Result<HeadStage, Fault>
    ensures { result ≡ expiry_line_of settings.now (texts_of words.now) }
{
    let [_, seconds] = words else {
        return Err(Fault::Head);
    };
    if !is_number(seconds) {
        return Err(Fault::Head);
    }
    match number_within(seconds, LEAST_EXPIRY, MOST_EXPIRY) {
        Some(expiry) => Ok(HeadStage::Schema(Settings {
            expiry,
            ..*settings
        })),
        None => Err(Fault::Number),
    }
}

fn run_line(settings: &Settings, words: &[&str]) -> Result<HeadLine, Fault>
    ensures { result ≡ run_line_of settings.now (texts_of words.now) }
{
    match words {
        [word] if *word == "run" => Ok(HeadLine::Run(*settings)),
        _ => Err(Fault::Head),
    }
}

/// What a line behind `grace` says.
fn later_line(settings: &Settings, words: &[&str]) -> Result<HeadLine, Fault>
    ensures { result ≡ later_line_of settings.now (texts_of words.now) }
{
    if is_first("expiry", words) {
        return Ok(HeadLine::Next(expiry_line(settings, words)?));
    }
    run_line(settings, words)
}

/// What a line behind `rf` says.
fn option_line(settings: &Settings, words: &[&str]) -> Result<HeadLine, Fault>
    ensures { result ≡ option_line_of settings.now (texts_of words.now) }
{
    if is_first("grace", words) {
        return Ok(HeadLine::Next(grace_line(settings, words)?));
    }
    later_line(settings, words)
}

/// What words say where they have to be this.
fn head_words(alloc: Global, stage: &HeadStage, words: &[&str]) -> Result<HeadLine, LineError>
    ensures { LineGives result (head_words_of stage.now (texts_of words.now)) }
{
    match stage {
        HeadStage::Version => Ok(HeadLine::Next(version_line(words)?)),
        HeadStage::Ring => Ok(HeadLine::Next(ring_line(alloc, words)?)),
        HeadStage::Factor(ring) => Ok(HeadLine::Next(factor_line(ring, words)?)),
        HeadStage::Grace(settings) => Ok(option_line(settings, words)?),
        HeadStage::Expiry(settings) => Ok(later_line(settings, words)?),
        HeadStage::Schema(settings) => Ok(run_line(settings, words)?),
    }
}

/// The statement of a line `schema`, where the schema has its place.
fn statement_at(alloc: Global, stage: &HeadStage, text: &str) -> Result<HeadLine, LineError>
    ensures { LineGives result (statement_at_of stage.now text.now) }
{
    match stage {
        HeadStage::Grace(settings) | HeadStage::Expiry(settings) | HeadStage::Schema(settings) => {
            Ok(HeadLine::Schema(*settings, Text::from_str(alloc, text)?))
        }
        HeadStage::Version | HeadStage::Ring | HeadStage::Factor(_) => {
            Err(LineError::Fault(Fault::Head))
        }
    }
}

/// What a line of the head says where it has to be this.
pub fn head_line(alloc: Global, stage: &HeadStage, line: &[u8]) -> Result<HeadLine, LineError>
    requires { 0 < length line.now }
    ensures { LineGives result (head_line_of stage.now line.now) }
{
    if let Some(text) = behind(line, b"schema ") {
        return statement_at(alloc, stage, text);
    }
    match words(alloc, line)? {
        Some(words) => head_words(alloc, stage, &words),
        None => Err(LineError::Fault(Fault::Head)),
    }
}
