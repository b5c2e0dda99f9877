//! A string of bytes.

ghost use Rattle.std.specs.Prelude.{◌≡◌, ◌==◌, ◌≤◌, ◌↔◌, List, [], IfOk, IfSome, IsSome, Some, length, refl};
ghost use Rattle.std.specs.Ordering.{nat_cmp};
ghost use Rattle.std.specs.Cmp;
ghost use Rattle.std.specs.Cmp.Lexicographic.{pointwise, slice_cmp, nat_list_eq_equiv, nat_list_cmp_total, texts_ties, texts_po};
ghost use Rattle.cs_base.specs.ByteStrings.{bytes_kept, short_bytes};

use std::alloc::{AllocError, Global};
use std::cmp::Ordering;
use std::fmt::{self, Debug, Formatter, Write};
use std::marker::Model;
use std::sync::Arc;

/// The longest string that is kept in the value itself. Most keys, names of rows and values are no longer.
const INLINE: usize = 23;

/// A string of few bytes, in as much memory as a `Vec` takes. Its bytes start at a multiple of eight: so they are moved in whole words.
#[derive(Clone, Copy)]
struct Short {
    align: [u64; 0],
    bytes: [u8; INLINE],
    len: u8,
}

impl Short {
    /// The bytes, if they are few enough.
    fn of(bytes: &[u8]) -> Option<Short>
        ensures { IfSome result (λ short. short_bytes short ≡ bytes.now) }
    {
        let len = bytes.len();
        if len > INLINE {
            return None;
        }
        let mut kept = [0; INLINE];
        kept[..len].copy_from_slice(bytes);
        Some(Short {
            align: [],
            bytes: kept,
            len: len as u8,
        })
    }

    fn as_slice(&self) -> &[u8]
        ensures { result.now ≡ short_bytes self.now }
    {
        let len = usize::from(self.len).min(INLINE);
        &self.bytes[..len]
    }
}

/// Where the bytes lie: in the value itself, in memory that copies share, or in memory that was handed in.
#[derive(Drop)]
enum Kept {
    Inline(Short),
    Shared(Arc<Vec<u8>>),
    Owned(Vec<u8>),
}

impl Kept {
    /// The bytes in the value itself, if they are few enough.
    fn inline(bytes: &[u8]) -> Option<Kept>
        ensures { IfSome result (λ kept. bytes_kept kept ≡ bytes.now) }
    {
        Short::of(bytes).map(Kept::Inline)
    }

    /// The bytes in memory that copies can share, or else where they were.
    fn shared(bytes: Vec<u8>, alloc: Global) -> Kept
        ensures { bytes_kept result ≡ bytes.items }
    {
        match Arc::new(alloc, bytes) {
            Ok(bytes) => Kept::Shared(bytes),
            Err(failed) => Kept::Owned(failed.value),
        }
    }

    fn as_slice(&self) -> &[u8]
        ensures { result.now ≡ bytes_kept self.now }
    {
        match self {
            Kept::Inline(short) => short.as_slice(),
            Kept::Shared(bytes) => (**bytes).as_slice(),
            Kept::Owned(bytes) => bytes.as_slice(),
        }
    }
}

/// A string of bytes, which compares as `memcmp` does: byte by byte, a beginning before the whole.
///
/// A short string is kept in the value itself, and the copies of a longer one share its memory.
pub struct Bytes {
    kept: Kept,
}

// Written out, a drop is one call wherever a value holds bytes, and not a match on where they lie.
impl Drop for Bytes {
    fn drop(self) {
        let Bytes { kept: _ } = self;
    }
}

impl Model for Bytes {
    ghost use Rattle.std.specs.Prelude.{ℕ, List};
    ghost use Rattle.cs_base.specs.ByteStrings.{bytes_kept};

    ghost Value = { List ℕ };

    ghost view = { λ a. bytes_kept a.kept };
}

impl Bytes {
    /// No bytes, without an allocation.
    pub fn new(_alloc: Global) -> Bytes
        ensures { result ≡ [] }
    {
        Bytes {
            kept: Kept::Inline(Short {
                align: [],
                bytes: [0; INLINE],
                len: 0,
            }),
        }
    }

    /// Takes the bytes over.
    pub fn from_vec(bytes: Vec<u8>) -> Bytes
        ensures { result ≡ bytes.items }
    {
        match Kept::inline(bytes.as_slice()) {
            Some(kept) => Bytes { kept },
            None => {
                let alloc = *bytes.allocator();
                Bytes {
                    kept: Kept::shared(bytes, alloc),
                }
            }
        }
    }

    /// A copy of the bytes.
    pub fn from_slice(alloc: Global, bytes: &[u8]) -> Result<Bytes, AllocError>
        ensures { IfOk result (λ copy. copy ≡ bytes.now) }
    {
        match Kept::inline(bytes) {
            Some(kept) => Ok(Bytes { kept }),
            None => Ok(Bytes {
                kept: Kept::shared(Vec::from_slice(alloc, bytes)?, alloc),
            }),
        }
    }

    pub fn as_slice(&self) -> &[u8]
        ensures { result.now ≡ self.now }
    {
        self.kept.as_slice()
    }

    /// The bytes in memory of their own.
    pub fn into_vec(self, alloc: Global) -> Result<Vec<u8>, AllocError>
        ensures { IfOk result (λ bytes. bytes.items ≡ self) }
    {
        let Bytes { kept } = self;
        match kept {
            Kept::Owned(bytes) => Ok(bytes),
            kept => Vec::from_slice(alloc, kept.as_slice()),
        }
    }

    /// An equal string.
    #[inline(always)]
    pub fn copy(&self, alloc: Global) -> Result<Bytes, AllocError>
        ensures { IfOk result (λ copy. copy ≡ self.now) }
    {
        if let Kept::Inline(short) = &self.kept {
            return Ok(Bytes {
                kept: Kept::Inline(*short),
            });
        }
        self.copy_apart(alloc)
    }

    /// An equal string: kept out of the callers of `copy`, most of whose strings are short.
    #[inline(never)]
    fn copy_apart(&self, alloc: Global) -> Result<Bytes, AllocError>
        ensures { IfOk result (λ copy. copy ≡ self.now) }
    {
        match &self.kept {
            Kept::Shared(bytes) => Ok(Bytes {
                kept: Kept::Shared(Arc::try_clone(bytes)?),
            }),
            kept => Bytes::from_slice(alloc, kept.as_slice()),
        }
    }
}

impl Debug for Bytes {
    fn fmt<W: Write>(&self, f: &mut Formatter<W>) -> fmt::Result {
        f.debug_list().entries(self.as_slice()).finish()
    }
}

impl PartialEq for Bytes {
    ghost eq = { pointwise ◌==◌ };

    ghost laws = { Cmp.partial_equiv_from_equiv nat_list_eq_equiv };

    fn eq(&self, other: &Bytes) -> bool {
        self.as_slice() == other.as_slice()
    }
}

impl Eq for Bytes {
    ghost laws = { nat_list_eq_equiv };
}

impl PartialOrd for Bytes {
    ghost partial_cmp = { λ a b. Some (slice_cmp nat_cmp a b) };

    ghost laws = { texts_po };

    fn partial_cmp(&self, other: &Bytes) -> Option<Ordering> {
        Some(self.cmp(other))
    }
}

impl Ord for Bytes {
    ghost cmp = { slice_cmp nat_cmp };

    ghost total = { nat_list_cmp_total };

    ghost matches_partial_cmp = { λ a b. refl };

    ghost matches_eq = { texts_ties };

    fn cmp(&self, other: &Bytes) -> Ordering {
        self.as_slice().cmp(other.as_slice())
    }
}
