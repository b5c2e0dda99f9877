use crate::helpers::each_line;
use cql_tokens::*;
use std::alloc::{AllocError, Global};
use std::fmt::Write;
use std::test::Fail;

/// The tokens of a text with their offsets, and then what they stop at, and the text; a `~` stands for a line feed. They
/// are what regular expressions for the words find, the longest one taken at each place.
const TABLE: &str = "|
|~
|   ~ ~
Word 0 6|SELECT
Word 0 8, Word 9 12, Word 13 18|select_1 Z9_ a_b__
Word 0 2, Whole 3 4, Word 4 5, Whole 6 8, Word 8 10|a1 1a 12ab
Char(0)|_a
Word 0 2|a_
QuotedName 0 6, QuotedName 7 9, QuotedName 10 16, QuotedName 17 21|\"Name\" \"\" \"a\"\"b\" \"\"\"\"
Unclosed(0)|\"a\"\"
QuotedName 0 5, Str 6 11|\"a'b\" 'a\"b'
Unclosed(0)|\"
QuotedName 0 7|\"\"\"\"\" \"
Str 0 2, Str 3 6, Str 7 14, Str 15 19|'' 'x' 'it''s' ''''
Str 0 9, Word 9 10|'a''b''c'd
Unclosed(0)|'it''s
Str 0 3, Unclosed(4)|'a' 'b
Unclosed(0)|'''
Str 0 11, Word 12 13|'line~line' x
Str 0 18, Str 19 28|'/* no comment */' '-- none'
Whole 0 1, Whole 2 4, Whole 5 8, Whole 9 11|1 -1 007 -0
Char(0)|-
|--
|-- all of it 'x
Whole 0 1|1--2
Whole 0 1, Whole 2 4, Whole 4 6|1 -2-3
Char(0)|- 1
Char(0)|-a
Word 0 1, Whole 1 3|a-1
Word 0 1, Word 5 6|a--b~c
Word 0 1, Word 5 6|a//b~c
|// x
|//
Word 0 1, Char(1)|a/b
Char(0)|/
|/**/
|/***/
Unclosed(0)|/*/
Word 5 6|/*/*/x
Whole 12 13, Whole 17 18|/* * / ** */1/**/2
Word 13 14|/* a /* b */ c
Word 0 1, Unclosed(2)|a /* open *
Word 11 12, Word 18 19, Word 25 26|/* ~ -- */ x -- y~z // u~w
Str 5 11|/*'*/' /* '
Blob 0 2, Blob 3 5, Blob 6 10, Blob 11 17|0x 0X 0xab 0XaBcD
Blob 0 4, Word 4 5, Blob 6 12, Whole 12 13, Blob 14 16, Word 16 18|0xabc 0xabcd1 0xag
Blob 0 2, Whole 2 3, Blob 4 6, Word 6 7|0x1 0xg
Whole 0 1, Word 1 2|0y
Whole 0 2, Word 2 5|00x12
Whole 0 2, Word 2 5|10x12
Whole 0 2, Word 2 5|-0x12
Uuid 0 36|123e4567-e89b-12d3-a456-426614174000
Uuid 0 36|ABCDEF01-2345-6789-abcd-ef0123456789
Uuid 0 36, Word 36 37|01234567-89ab-cdef-0123-456789abcdefa
Word 0 8, Whole 8 13, Whole 13 18, Whole 18 23, Whole 23 34, Word 34 35|abcdefab-1234-1234-1234-1234567890a
Whole 0 8, Whole 8 13, Whole 13 18, Whole 18 23, Whole 23 35|12345678-1234-1234-1234-12345678901
Whole 0 3, Word 3 8, Char(8)|123e4567-e89b-12d3-a456_426614174000
Whole 0 3, Word 3 32|123e4567e89b12d3a456426614174000
Word 0 8, Char(8)|g23e4567-e89b-12d3-a456-426614174000
Blob 0 8, Char(8)|0x3e4567-e89b-12d3-a456-426614174000
Uuid 0 36, Str 36 39|12345678-1234-1234-1234-1234567890ab'x'
Whole 0 3, Word 3 8, Char(8)|123e4567-e89b-12d3-a45-6426614174000
Whole 0 3, Word 3 8|123e4567--e89b
OpenParenthesis 0 1, CloseParenthesis 2 3, OpenBrace 4 5, CloseBrace 6 7, Comma 8 9, Dot 10 11, Semicolon 12 13, Colon 14 15, QuestionMark 16 17, Star 18 19, Equal 20 21, NotEqual 22 24, Less 25 26, LessOrEqual 27 29, Greater 30 31, GreaterOrEqual 32 34|( ) { } , . ; : ? * = != < <= > >=
OpenParenthesis 0 1, CloseParenthesis 1 2, OpenBrace 2 3, CloseBrace 3 4, Comma 4 5, Dot 5 6, Semicolon 6 7, Colon 7 8, QuestionMark 8 9, Star 9 10, Equal 10 11, NotEqual 11 13, Less 13 14, LessOrEqual 14 16, Greater 16 17, GreaterOrEqual 17 19|(){},.;:?*=!=<<=>>=
LessOrEqual 0 2, Equal 2 3, GreaterOrEqual 4 6, Equal 6 7, Equal 8 9, Equal 9 10|<== >== ==
Less 0 1, GreaterOrEqual 1 3, Less 3 4|<>=<
Char(0)|!
Word 0 1, Char(1)|a!b
Char(0)|! =
Equal 0 1, Char(1)|=!
Word 0 1, Equal 1 2, Colon 2 3, Word 3 4|k=:k
Word 0 1, Equal 1 2, QuestionMark 2 3|v=?
Word 0 2, Dot 2 3, Word 3 4, Dot 4 5, QuotedName 5 8, Dot 8 9, Star 9 10|ks.t.\"T\".*
OpenBrace 0 1, Str 1 4, Colon 4 5, Whole 5 6, Comma 6 7, Str 7 10, Colon 10 11, Whole 11 13, CloseBrace 13 14|{'a':1,'b':-2}
Word 0 6, Word 7 11, Word 12 14, Dot 14 15, Word 15 16, OpenParenthesis 17 18, Word 18 19, Comma 19 20, Word 21 22, CloseParenthesis 22 23, Word 24 30, OpenParenthesis 31 32, QuestionMark 32 33, Comma 33 34, Blob 35 39, CloseParenthesis 39 40, Word 41 43, Word 44 47, Word 48 54, Semicolon 54 55|INSERT INTO ks.t (k, v) VALUES (?, 0xff) IF NOT EXISTS;
Word 0 6, Word 7 12, OpenParenthesis 12 13, Star 13 14, CloseParenthesis 14 15, Word 16 20, Word 21 22, Word 23 28, Word 29 30, Equal 31 32, Whole 33 34, Word 35 38, Word 39 40, GreaterOrEqual 41 43, Whole 44 46, Word 47 52, Whole 53 55, Semicolon 55 56|SELECT COUNT(*) FROM t WHERE k = 1 AND c >= -5 LIMIT 10;
Word 0 6, Word 7 8, Word 9 12, Word 13 14, Equal 14 15, Str 15 19, Word 20 25, Word 26 27, Equal 27 28, Whole 28 29|UPDATE t SET v='é' WHERE k=1
Char(0)|é
Word 0 1, Char(1)|aé
Str 0 4, Char(5)|'é' é
Str 0 4, Word 4 5|'é'x
QuotedName 0 7, Whole 22 23|\"é€\" /*€*/ -- é~1
Char(0)|@ 
Word 0 1, Char(2)|a $ 'b
Word 0 1, Char(1)|a[0]
Word 0 1, Char(1)|a+b
Word 0 1, Char(1)|a%
Word 0 1, Char(1)|a\\b
Char(0)|`a`
Word 0 1, Char(1)|a|b
Word 0 1, Char(1)|x&
Char(0)|#x
Word 0 1, Char(1)|a^
Char(0)|!é
Char(0)|-é
Char(0)|/é
Less 0 1, Char(1)|<é
Unclosed(0)|'é
Unclosed(0)|/*é
Whole 0 2, Char(2)|12é
Blob 0 2, Char(2)|0xé
Whole 0 1, Dot 1 2, Whole 2 3, Dot 4 5, Whole 5 6, Whole 7 8, Dot 8 9|1.5 .5 5.
Whole 0 1, Word 1 3, Whole 4 6, Word 6 7, Whole 7 9|1e5 -1E-5
Char(0)|$$x$$
Word 0 1, Dot 1 2, Whole 2 3|a.1
Whole 0 2, Dot 2 3, Whole 3 5|-1.-1
Char(0)|+1
Word 0 4, Word 5 9, Word 10 13|tRuE NULL nan
Str 0 4|'--' -- '
QuotedName 0 4, QuotedName 13 17|\"/*\" /* \" */ \"*/\"";

fn meant(character: char) -> char {
    if character == '~' { '\n' } else { character }
}

fn with_line_feeds(alloc: Global, text: &str) -> Result<String, AllocError> {
    let mut lines = String::new(alloc);
    for character in text.chars() {
        lines.push(meant(character))?;
    }
    Ok(lines)
}

/// A token behind what is shown already, with a comma between them.
fn show_token(shown: &mut String, token: &Token) -> Result<(), AllocError> {
    let comma = if shown.is_empty() { "" } else { ", " };
    let Token { kind, start, end } = *token;
    write!(shown, "{comma}{kind:?} {start} {end}")
}

/// The same for what the tokens stop at.
fn show_stop(shown: &mut String, stop: Stop) -> Result<(), AllocError> {
    let comma = if shown.is_empty() { "" } else { ", " };
    write!(shown, "{comma}{stop:?}")
}

fn show(shown: &mut String, scanned: &Scanned) -> Result<(), AllocError> {
    for token in scanned.tokens.as_slice() {
        show_token(shown, token)?;
    }
    match scanned.stop {
        Some(stop) => show_stop(shown, stop),
        None => Ok(()),
    }
}

/// Whether these are the tokens of the text, and what they stop at.
fn is_shown(alloc: Global, text: &str, expected: &str) -> Result<bool, Fail> {
    let mut shown = String::new(alloc);
    show(&mut shown, &scan(alloc, text)?)?;
    Ok(shown.as_str() == expected)
}

fn is_shown_of_line(alloc: Global, line: &str) -> Result<bool, Fail> {
    let (expected, text) = line.split_once('|').unwrap_or((line, ""));
    is_shown(alloc, with_line_feeds(alloc, text)?.as_str(), expected)
}

#[test]
fn tokens_of_the_table(rt: HostRuntime) -> Result<(), Fail> {
    each_line(&rt, rt.alloc(), TABLE, is_shown_of_line)
}

#[test]
fn all_blanks_are_blanks(rt: HostRuntime) -> Result<(), Fail> {
    for (text, expected) in [
        ("\ta\r\nb\n c\r-- d\r\te\n", "Word 1 2, Word 4 5, Word 7 8"),
        // Other white space is none.
        ("a\u{c}b", "Word 0 1, Char(1)"),
        ("a\u{a0}b", "Word 0 1, Char(1)"),
        ("\0", "Char(0)"),
    ] {
        assert!(rt; is_shown(rt.alloc(), text, expected)?, "{expected}");
    }
    Ok(())
}

const STATEMENT: &str =
    "SELECT k,\"V\" FROM ks.t -- all\nWHERE k>='\u{e9}''s' /* \u{20ac} */ AND i = 0xAB";

/// The texts of its tokens, with one blank behind each.
const WORDS: &str = "SELECT k , \"V\" FROM ks . t WHERE k >= '\u{e9}''s' AND i = 0xAB ";

/// The texts of these tokens of a text.
fn words(alloc: Global, text: &str, tokens: &[Token]) -> Result<String, AllocError> {
    let mut words = String::new(alloc);
    for token in tokens {
        words.push_str(text_of(text, token).unwrap_or("?"))?;
        words.push(' ')?;
    }
    Ok(words)
}

/// The texts of the tokens of a text, with one blank behind each.
pub fn spaced(alloc: Global, text: &str) -> Result<String, AllocError> {
    words(alloc, text, scan(alloc, text)?.tokens.as_slice())
}

fn has_words(alloc: Global, text: &str, expected: &str) -> Result<bool, AllocError> {
    Ok(spaced(alloc, text)?.as_str() == expected)
}

/// The texts that are put together have the same tokens again.
#[test]
fn texts_of_tokens(rt: HostRuntime) -> Result<(), Fail> {
    for text in [STATEMENT, WORDS] {
        assert!(rt; has_words(rt.alloc(), text, WORDS)?, "{text}");
    }
    Ok(())
}

fn token(start: usize, end: usize) -> Token {
    Token {
        kind: TokenKind::Str,
        start,
        end,
    }
}

#[test]
fn texts_of_other_tokens(rt: HostRuntime) {
    for (start, end, expected) in [
        (1, 3, Some("\u{e9}")),
        (4, 4, Some("")),
        (3, 5, None),
        (3, 1, None),
        (1, 2, None),
        (2, 3, None),
        (5, 5, None),
    ] {
        assert!(rt;
            text_of("a\u{e9}b", &token(start, end)) == expected,
            "{start} {end}"
        );
    }
}
