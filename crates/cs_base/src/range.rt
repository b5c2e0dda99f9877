//! Ranges of tokens.

/// The tokens above one and up to another, clockwise; all tokens where the two are equal.
#[derive(Clone, Copy, Debug, PartialEq, Eq)]
pub struct Range {
    pub after: i64,
    pub upto: i64,
}

impl Range {
    ghost use Rattle.std.specs.Prelude.{◌≡◌};
    ghost use Rattle.cs_base.specs.Ring.{in_range};

    /// Whether the token is in the range, which may go on from the greatest token to the least.
    pub fn contains(&self, token: i64) -> bool
        ensures { result ≡ in_range self.now token }
    {
        if self.after < self.upto {
            self.after < token && token <= self.upto
        } else {
            self.after < token || token <= self.upto
        }
    }
}
