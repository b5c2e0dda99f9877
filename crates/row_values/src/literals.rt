//! The literals of a row's values, each of which is printed once, before those that are shown are put into a line.

ghost use Rattle.std.specs.Prelude.{◌≡◌, ◌∷◌, ◌++◌, [], length, take, IfOk, OnOk};

use std::alloc::{AllocError, Global};

/// Where a literal stands.
#[derive(Clone, Copy, Debug)]
pub(crate) struct Span {
    pub(crate) start: usize,
    pub(crate) end: usize,
}

/// Literals, one behind another.
#[derive(Drop)]
pub(crate) struct Literals {
    pub(crate) text: Vec<u8>,
    pub(crate) spans: Vec<Span>,
}

/// How long their text was, and how many they were.
#[derive(Clone, Copy, Debug)]
pub(crate) struct Mark {
    pub(crate) text: usize,
    pub(crate) spans: usize,
}

/// How many bytes the literals of most rows take.
const TEXT_ROOM: usize = 128;

impl Literals {
    ghost use Rattle.row_values.specs.Texts.{span_at};

    /// None, with room for those of so many columns.
    pub(crate) fn with_room(alloc: Global, columns: usize) -> Result<Literals, AllocError>
        ensures text { IfOk result (λ literals. literals.text.items ≡ []) }
        ensures spans { IfOk result (λ literals. literals.spans.items ≡ []) }
    {
        let text = Vec::with_capacity(alloc, TEXT_ROOM)?;
        let spans = Vec::with_capacity(alloc, columns)?;
        Ok(Literals { text, spans })
    }

    /// How many bytes their text has.
    pub(crate) fn text_len(&self) -> usize
        ensures { result ≡ length self.now.text.items }
    {
        self.text.len()
    }

    pub(crate) fn mark(&self) -> Mark
        ensures text { result.text ≡ length self.now.text.items }
        ensures spans { result.spans ≡ length self.now.spans.items }
    {
        Mark {
            text: self.text.len(),
            spans: self.spans.len(),
        }
    }

    /// Lets go of those behind the mark.
    pub(crate) fn back_to(&mut self, mark: Mark)
        ensures text { self.new.text.items ≡ take mark.text self.old.text.items }
        ensures spans { self.new.spans.items ≡ take mark.spans self.old.spans.items }
    {
        self.text.truncate(mark.text);
        self.spans.truncate(mark.spans);
    }

    /// Says that the text from this place on is one literal.
    pub(crate) fn end(&mut self, start: usize) -> Result<(), AllocError>
        ensures text { OnOk result (self.new.text.items ≡ self.old.text.items) }
        ensures spans { OnOk result (self.new.spans.items ≡ self.old.spans.items ++ span_at start (length self.old.text.items) ∷ []) }
    {
        let end = self.text.len();
        self.spans.push(Span { start, end })?;
        Ok(())
    }
}
