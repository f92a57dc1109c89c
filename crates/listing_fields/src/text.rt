//! Numbers as text.

use itoa::Buffer;
use std::alloc::AllocError;

/// Pushes a number in decimal.
fn push_decimal(text: &mut String, number: u64) -> Result<(), AllocError> {
    let mut buffer = Buffer::new();
    text.push_str(buffer.format(number))
}

/// Pushes a word, and a number in decimal.
pub(crate) fn push_counted(text: &mut String, word: &str, number: u64) -> Result<(), AllocError> {
    text.push_str(word)?;
    push_decimal(text, number)
}
