//! Words that stand as text in a table.

use std::alloc::Global;
use std::test::Fail;

/// A word of a table: a number, `0x` and its digits, `any` or `none` for all ones, or behind a
/// quote the bytes of a short text.
fn word_of(text: &str) -> Result<u64, Fail> {
    if text == "any" || text == "none" {
        return Ok(u64::MAX);
    }
    if let Some(letters) = text.strip_prefix('\'') {
        return Ok(
            letters
                .bytes()
                .rev()
                .fold(0, |word, byte| (word << 8) | u64::from(byte)),
        );
    }
    if let Some(digits) = text.strip_prefix("0x") {
        return Ok(u64::from_str_radix(digits, 16)?);
    }
    Ok(text.parse::<u64>()?)
}

/// The words of a line.
pub fn words_of(alloc: Global, line: &str) -> Result<Vec<u64>, Fail> {
    let mut words = Vec::new(alloc);
    for text in line.split_whitespace() {
        words.push(word_of(text)?)?;
    }
    Ok(words)
}

/// The bytes of a line's words, the lowest byte of each first.
pub fn bytes_of(alloc: Global, line: &str) -> Result<Vec<u8>, Fail> {
    let mut bytes = Vec::new(alloc);
    for text in line.split_whitespace() {
        bytes.extend_from_slice(&word_of(text)?.to_le_bytes())?;
    }
    Ok(bytes)
}

/// The parts of a line before and behind its colon.
pub fn halves(line: &str) -> Result<(&str, &str), Fail> {
    Ok(line.split_once(':').ok_or("a line without a colon")?)
}
