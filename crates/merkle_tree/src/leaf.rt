//! Which leaf of a range a token is in.

ghost use Rattle.std.specs.Prelude.{◌≡◌, ◌<◌, IsTrue};
ghost use Rattle.cs_base.specs.Ring.{clockwise, in_range, leaf_of as leaf_number, width as width_of};
ghost use Rattle.merkle_tree.specs.Ranges.{HasTokens};

use cs_base::{LEAVES, Range};

/// How far `to` is from `from`, clockwise.
fn distance(from: i64, to: i64) -> u64
    ensures { result ≡ clockwise from to }
{
    to.wrapping_sub(from).cast_unsigned()
}

/// How many tokens the range has: all, where its ends are equal.
fn width(range: &Range) -> u128
    ensures value { result ≡ width_of range.now }
    ensures ends { HasTokens range.now }
{
    match distance(range.after, range.upto) {
        0 => 1 << 64,
        tokens => u128::from(tokens),
    }
}

/// The leaf of a token: each of the 256 leaves has as many tokens as the others, or one more or less, and leaf 0 begins right
/// above the range's lower end.
pub fn leaf_of(range: &Range, token: i64) -> u8
    requires { IsTrue (in_range range.now token) }
    ensures value { result ≡ leaf_number range.now token }
    ensures within { leaf_number range.now token < 256 }
{
    let before = distance(range.after, token).wrapping_sub(1);
    (u128::from(before) * LEAVES as u128 / width(range)) as u8
}
