//! How far the words of a text reach.

ghost use Rattle.std.specs.Prelude.{◌≡◌, ◌≤◌, false, length, IfSome};
ghost use Rattle.cql_tokens.specs.Words.{is_word_byte, fits, uuid_shape};
ghost use Rattle.cql_tokens.specs.Tokens.{is_in_line};
ghost use Rattle.cql_tokens.specs.Scanning.{comment_len, front_fits, is_of, quoted_len, run};

/// The bytes that go on with a word or with a comment.
#[derive(Clone, Copy, Debug)]
pub(crate) enum Class {
    /// Letters, digits and `_`.
    Word,
    Digit,
    Hexadecimal,
    /// All but a line feed.
    Line,
}

fn is_word_byte(byte: u8) -> bool
    ensures { result ≡ is_word_byte byte }
{
    byte.is_ascii_alphanumeric() || byte == b'_'
}

fn is_in_line(byte: u8) -> bool
    ensures { result ≡ is_in_line byte }
{
    byte != b'\n'
}

fn is_of(class: Class, byte: u8) -> bool
    ensures { result ≡ is_of class byte }
{
    match class {
        Class::Word => is_word_byte(byte),
        Class::Digit => byte.is_ascii_digit(),
        Class::Hexadecimal => byte.is_ascii_hexdigit(),
        Class::Line => is_in_line(byte),
    }
}

/// How many bytes of the class stand at the front.
pub(crate) fn run(class: Class, bytes: &[u8]) -> usize
    ensures value { result ≡ run class bytes.now }
    ensures within { result ≤ length bytes.now }
{
    for (at, byte) in bytes.iter().enumerate() {
        if !is_of(class, *byte) {
            return at;
        }
    }
    bytes.len()
}

/// How long the rest of a text in quotes is, with the quote that closes it.
pub(crate) fn quoted_len(quote: u8, bytes: &[u8]) -> Option<usize>
    ensures value { result ≡ quoted_len quote false bytes.now }
    ensures within { IfSome result (λ len. len ≤ length bytes.now) }
{
    let mut after_quote = false;
    for (at, byte) in bytes.iter().enumerate() {
        let is_quote = *byte == quote;
        if after_quote && !is_quote {
            return Some(at);
        }
        // A quote closes the text, and another behind it opens it again.
        after_quote = after_quote != is_quote;
    }
    if after_quote { Some(bytes.len()) } else { None }
}

/// How long the rest of a `/* */` comment is, with its end.
pub(crate) fn comment_len(bytes: &[u8]) -> Option<usize>
    ensures value { result ≡ comment_len false bytes.now }
    ensures within { IfSome result (λ len. len ≤ length bytes.now) }
{
    let mut after_star = false;
    for (at, byte) in bytes.iter().enumerate() {
        if after_star && *byte == b'/' {
            return Some(at + 1);
        }
        after_star = *byte == b'*';
    }
    None
}

/// How many bytes a uuid in its hyphenated form has.
pub(crate) const UUID_LEN: usize = 36;

/// A uuid in its hyphenated form, with `x` for a hexadecimal digit.
const UUID_SHAPE: &[u8] = b"xxxxxxxx-xxxx-xxxx-xxxx-xxxxxxxxxxxx";

fn fits(shape: u8, byte: u8) -> bool
    ensures { result ≡ fits shape byte }
{
    if shape == b'x' {
        byte.is_ascii_hexdigit()
    } else {
        byte == shape
    }
}

/// Whether a front of the bytes has this shape.
fn front_fits(shape: &[u8], bytes: &[u8]) -> bool
    ensures { result ≡ front_fits shape.now bytes.now }
{
    for (at, expected) in shape.iter().enumerate() {
        if bytes.len() <= at {
            return false;
        }
        if !fits(*expected, bytes[at]) {
            return false;
        }
    }
    true
}

/// Whether a uuid stands at the front.
pub(crate) fn begins_with_uuid(bytes: &[u8]) -> bool
    ensures { result ≡ front_fits uuid_shape bytes.now }
{
    front_fits(UUID_SHAPE, bytes)
}
