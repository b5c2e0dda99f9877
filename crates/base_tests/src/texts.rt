//! Texts.

use cs_base::Text;
use std::alloc::{AllocError, Global};
use std::test::Fail;

/// A short text, the longest that is kept inline, and one that is longer.
const TEXTS: [&str; 3] = [
    "żółć",
    "012345678901234567890123",
    "0123456789012345678901234",
];

/// Whether this is the text, and its copy too.
fn is_copied(alloc: Global, kept: &Text, text: &str) -> Result<bool, AllocError> {
    let copy = kept.copy(alloc)?;
    Ok(kept.as_str() == text && copy.as_str() == text)
}

fn is_kept(alloc: Global, text: &str) -> Result<bool, AllocError> {
    let kept = Text::from_str(alloc, text)?;
    is_copied(alloc, &kept, text)
}

fn is_taken_over(alloc: Global, text: &str) -> Result<bool, AllocError> {
    let kept = Text::from_string(String::from_str(alloc, text)?);
    is_copied(alloc, &kept, text)
}

#[test]
fn texts_are_kept_and_copied(rt: HostRuntime) -> Result<(), Fail> {
    for text in &TEXTS {
        assert!(rt; is_kept(rt.alloc(), text)? && is_taken_over(rt.alloc(), text)?);
    }
    Ok(())
}
