//! Words that stand as text in a table.

use std::alloc::Global;
use std::test::Fail;

/// A word of a table: a number, `any` for all ones, or behind a quote the bytes of a short text.
pub fn number_of(text: &str) -> Result<u64, Fail> {
    if text == "any" {
        return Ok(u64::MAX);
    }
    if let Some(letters) = text.strip_prefix('\'') {
        return Ok(
            letters
                .bytes()
                .rev()
                .fold(0, |word, byte| (word << 8) | u64::from(byte)),
        );
    }
    Ok(text.parse::<u64>()?)
}

/// The bytes of the words of all lines, the lowest byte of each first.
pub fn bytes_of(alloc: Global, lines: &str) -> Result<Vec<u8>, Fail> {
    let mut bytes = Vec::new(alloc);
    for text in lines.split_whitespace() {
        bytes.extend_from_slice(&number_of(text)?.to_le_bytes())?;
    }
    Ok(bytes)
}

/// The number before a line's colon, and the words behind it.
pub fn numbered(line: &str) -> Result<(u64, &str), Fail> {
    let (number, words) = line.split_once(':').ok_or("a line without a colon")?;
    Ok((number_of(number)?, words))
}
