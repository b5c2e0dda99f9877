//! Numbers of files.

ghost use Rattle.std.specs.Prelude.{◌≡◌, ℕ, ◌≤◌, ◌↔◌, IsSome, IfSome};

use std::marker::Model;

/// The greatest number of a file.
pub const LAST_FILE: u16 = 4095;

/// A file of a store, by its number from 0 on.
#[derive(Clone, Copy, Debug, PartialEq, Eq, PartialOrd, Ord)]
pub struct FileNo {
    number: u16,
}

impl Model for FileNo {
    ghost Value = { ℕ };

    ghost view = { λ a. a.number };

    ghost invariant = { λ a. a.number ≤ 4095 };

    ghost inverse = { λ n. record { number = n } };
}

impl FileNo {
    /// The file of this number, if a store can have it.
    pub fn new(n: u16) -> Option<FileNo>
        ensures valid { IsSome result ↔ (n ≤ 4095) }
        ensures value { IfSome result (λ f. f ≡ n) }
    {
        if n <= LAST_FILE {
            Some(FileNo { number: n })
        } else {
            None
        }
    }

    pub fn number(self) -> u16
        ensures value { result ≡ self }
        ensures within { result ≤ 4095 }
    {
        self.number
    }
}
