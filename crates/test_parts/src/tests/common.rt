//! What several of these tests use.
use basics::Text;
use std::process::Abort;

/// Asserts that a text is these words.
pub(crate) fn assert_text(rt: &impl Abort, text: Text, words: &str) {
    assert_eq!(rt; text.items(), words.as_bytes());
}
