//! The tokens of a text.

ghost use Rattle.std.specs.Prelude.{◌≡◌, All, IfOk, MatchOption, length};
ghost use Rattle.cql_tokens.specs.Tokens.{AreInOrder, IsScan, IsSlice, word_of};

use crate::found::{Found, front_of};
use crate::token::{Scanned, Stop, Token, TokenList};
use cs_base::Items;
use std::alloc::{AllocError, Global};

fn scan_bytes(alloc: Global, bytes: &[u8]) -> Result<Scanned, AllocError>
    ensures { IfOk result (λ scanned. IsScan bytes.now scanned) }
{
    let mut tokens: TokenList = Items::new(alloc);
    let mut at = 0;
    while at < bytes.len() {
        match front_of(&bytes[at..]) {
            Found::Gap(len) => at += len,
            Found::Token(kind, len) => {
                let end = at + len;
                tokens.push(Token {
                    kind,
                    start: at,
                    end,
                })?;
                at = end;
            }
            Found::Unclosed => {
                return Ok(Scanned {
                    tokens,
                    stop: Some(Stop::Unclosed(at)),
                });
            }
            Found::Nothing => {
                return Ok(Scanned {
                    tokens,
                    stop: Some(Stop::Char(at)),
                });
            }
        }
    }
    Ok(Scanned { tokens, stop: None })
}

/// The tokens of a text, up to its end or to the first offset at which neither a blank nor a comment nor a token begins.
pub fn scan(alloc: Global, text: &str) -> Result<Scanned, AllocError>
    ensures scanned { IfOk result (λ scanned. IsScan text.now scanned) }
    // `text_of` gives the text of each.
    ensures slices { IfOk result (λ scanned. All (IsSlice text.now) scanned.tokens) }
    ensures in_order { IfOk result (λ scanned. AreInOrder 0 (length text.now) scanned.tokens) }
{
    scan_bytes(alloc, text.as_bytes())
}

/// The text of a token of this text. `None` is for a token of another one, whose offsets are no slice of this text.
pub fn text_of<'a>(text: &'a str, token: &Token) -> Option<&'a str>
    ensures { MatchOption result (IsSlice text.now token.now → ⊥) (λ word. IsSlice text.now token.now × (word.now ≡ word_of text.now token.now)) }
{
    if token.end < token.start || !text.is_char_boundary(token.start) {
        return None;
    }
    if !text.is_char_boundary(token.end) {
        return None;
    }
    Some(&text[token.start..token.end])
}
