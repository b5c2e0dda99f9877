//! A text.

ghost use Rattle.std.specs.Prelude.{◌≡◌, [], IfOk, IfSome, string_bytes};
ghost use Rattle.cs_base.specs.ByteStrings.{text_kept};

use arrayvec::ArrayString;
use std::alloc::{AllocError, Global};
use std::fmt::{self, Debug, Formatter, Write};
use std::marker::Model;
use std::sync::Arc;

/// The longest text that is kept in the value itself.
const INLINE: usize = 24;

/// Where the text lies: in the value itself, in memory that copies share, or in memory that was handed in.
#[derive(Drop)]
enum KeptText {
    Inline(ArrayString<INLINE>),
    Shared(Arc<String>),
    Owned(String),
}

impl KeptText {
    /// The text in the value itself, if it is short enough.
    fn inline(text: &str) -> Option<KeptText>
        ensures { IfSome result (λ kept. text_kept kept ≡ text.now) }
    {
        let mut short = ArrayString::new();
        match short.try_push_str(text) {
            Ok(()) => Some(KeptText::Inline(short)),
            Err(_) => None,
        }
    }

    /// The text in memory that copies can share, or else where it was.
    fn shared(text: String, alloc: Global) -> KeptText
        ensures { text_kept result ≡ string_bytes text }
    {
        match Arc::new(alloc, text) {
            Ok(text) => KeptText::Shared(text),
            Err(failed) => KeptText::Owned(failed.value),
        }
    }

    fn as_str(&self) -> &str
        ensures { result.now ≡ text_kept self.now }
    {
        match self {
            KeptText::Inline(short) => short.as_str(),
            KeptText::Shared(text) => (**text).as_str(),
            KeptText::Owned(text) => text.as_str(),
        }
    }
}

/// A text in UTF-8, which contracts see as its bytes.
///
/// A short text is kept in the value itself, and the copies of a longer one share its memory.
pub struct Text {
    kept: KeptText,
}

// Written out, a drop is one call wherever a value holds a text, and not a match on where it lies.
impl Drop for Text {
    fn drop(self) {
        let Text { kept: _ } = self;
    }
}

impl Model for Text {
    ghost use Rattle.std.specs.Prelude.{ℕ, List};
    ghost use Rattle.cs_base.specs.ByteStrings.{text_kept};

    ghost Value = { List ℕ };

    ghost view = { λ a. text_kept a.kept };
}

impl Text {
    /// Takes the text over.
    pub fn from_string(text: String) -> Text
        ensures { result ≡ string_bytes text }
    {
        match KeptText::inline(text.as_str()) {
            Some(kept) => Text { kept },
            None => {
                let alloc = *text.allocator();
                Text {
                    kept: KeptText::shared(text, alloc),
                }
            }
        }
    }

    /// A copy of the text.
    pub fn from_str(alloc: Global, text: &str) -> Result<Text, AllocError>
        ensures { IfOk result (λ copy. copy ≡ text.now) }
    {
        match KeptText::inline(text) {
            Some(kept) => Ok(Text { kept }),
            None => Ok(Text {
                kept: KeptText::shared(String::from_str(alloc, text)?, alloc),
            }),
        }
    }

    pub fn as_str(&self) -> &str
        ensures { result.now ≡ self.now }
    {
        self.kept.as_str()
    }

    /// An equal text.
    pub fn copy(&self, alloc: Global) -> Result<Text, AllocError>
        ensures { IfOk result (λ copy. copy ≡ self.now) }
    {
        match &self.kept {
            KeptText::Shared(text) => Ok(Text {
                kept: KeptText::Shared(Arc::try_clone(text)?),
            }),
            kept => Text::from_str(alloc, kept.as_str()),
        }
    }
}

impl Debug for Text {
    fn fmt<W: Write>(&self, f: &mut Formatter<W>) -> fmt::Result {
        Debug::fmt(self.as_str(), f)
    }
}
