//! Rows of tables that are texts.
use std::alloc::{AllocError, Global};
use std::process::Abort;

/// The text before the mark and the one behind it; all of it and nothing where there is no mark.
pub(crate) fn halves<'a>(row: &'a str, mark: &str) -> (&'a str, &'a str) {
    row.split_once(mark).unwrap_or((row, ""))
}

/// The number that the word is, or 0.
pub(crate) fn number_of(word: &str) -> u64 {
    word.parse::<u64>().unwrap_or(0)
}

/// Asserts that what is told of a row is what is wanted.
pub(crate) fn expect_same(rt: &impl Abort, told: &str, wanted: &str, row: &str) {
    assert_eq!(rt; told, wanted, "{row}");
}

/// Asserts how many rows there are.
pub(crate) fn expect_count(rt: &impl Abort, rows: &str, count: usize) {
    assert_eq!(rt; rows.lines().count(), count);
}

/// The text with a line feed in place of each `~`.
pub(crate) fn lines_of(alloc: Global, text: &str) -> Result<Vec<u8>, AllocError> {
    text.bytes()
        .map(|b| if b == b'~' { b'\n' } else { b })
        .collect(alloc)
}

/// The text, of ASCII, with a `~` in place of each line feed.
pub(crate) fn shown(alloc: Global, text: &[u8]) -> Result<String, AllocError> {
    let mut shown = String::new(alloc);
    for byte in text {
        shown.push(if *byte == b'\n' {
            '~'
        } else {
            char::from(*byte)
        })?;
    }
    Ok(shown)
}
