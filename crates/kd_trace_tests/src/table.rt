//! Traces that stand as text: a pair on each line, an event and behind the arrow its answer.

use kd_item::put_item;
use kd_outside::{MemSink, MemSource};
use kd_trace::check_run;
use kd_types::Status;
use std::alloc::Global;
use std::test::Fail;

/// A connection that sends itself a message, receives, reads and frees it.
pub const SELF: &str = "\
take 1 56 1 1 0 4096 0 0 -> plain 1
visit 1 0 -> plain 5
leave 1 -> left 56 1 1 0 1 64 8
take 1 120 2 1 0 88 0 0 1 0 0 0 0 18 1 'hi -> plain 1
visit 1 0 -> slice 0
leave 1 -> left 32 2 1 0
publish 1 0 0 -> plain 2
receive 1 0 0 -> got 0 0 104 0
read 1 0 0 -> bytes 96 0 0 1 1 0 0 0 32 19 2 96 'hi
free 1 0 -> plain 4
";

/// The kind of an item, by its name.
fn kind_of(name: &str) -> Result<u64, Fail> {
    match name {
        "take" => Ok(32),
        "visit" => Ok(33),
        "leave" => Ok(34),
        "publish" => Ok(35),
        "receive" => Ok(36),
        "read" => Ok(37),
        "free" => Ok(38),
        "plain" => Ok(48),
        "refused" => Ok(49),
        "slice" => Ok(50),
        "visit_refused" => Ok(51),
        "left" => Ok(52),
        "got" => Ok(53),
        "bytes" => Ok(54),
        _ => Err("no such item")?,
    }
}

/// A word of a table: a number, or behind a quote the bytes of a short text.
fn word_of(text: &str) -> Result<u64, Fail> {
    if let Some(letters) = text.strip_prefix('\'') {
        return Ok(
            letters
                .bytes()
                .rev()
                .fold(0, |word, byte| (word << 8) | u64::from(byte)),
        );
    }
    Ok(text.parse::<u64>()?)
}

/// Writes an item: its kind's name, and the words of its body.
fn put_words(alloc: Global, text: &str, bytes: &mut Vec<u8>) -> Result<(), Fail> {
    let mut words = text.split_whitespace();
    let kind = kind_of(words.next().unwrap_or(""))?;
    let mut body = Vec::new(alloc);
    for word in words {
        body.extend_from_slice(&word_of(word)?.to_le_bytes())?;
    }
    put_item(bytes, kind, &body)?;
    Ok(())
}

/// The items of pairs, and where each begins and ends.
pub fn items_of(alloc: Global, lines: &str) -> Result<(Vec<u8>, Vec<(usize, usize)>), Fail> {
    let mut bytes = Vec::new(alloc);
    let mut places = Vec::new(alloc);
    for line in lines.lines() {
        for text in line.split("->") {
            let start = bytes.len();
            put_words(alloc, text, &mut bytes)?;
            places.push((start, bytes.len()))?;
        }
    }
    Ok((bytes, places))
}

/// The lines, but the one of this number is another.
pub fn with_line(alloc: Global, lines: &str, index: usize, other: &str) -> Result<String, Fail> {
    let mut text = String::new(alloc);
    for (number, line) in lines.lines().enumerate() {
        text.push_str(if number == index { other } else { line })?;
        text.push_str("\n")?;
    }
    Ok(text)
}

/// The lines, but the one of this number and the next have changed places.
pub fn exchanged(alloc: Global, lines: &str, index: usize) -> Result<String, Fail> {
    let mut text = String::new(alloc);
    let mut kept = String::new(alloc);
    for (number, line) in lines.lines().enumerate() {
        if number == index {
            kept.push_str(line)?;
            kept.push_str("\n")?;
            continue;
        }
        text.push_str(line)?;
        text.push_str("\n")?;
        text.push_str(kept.as_str())?;
        kept = String::new(alloc);
    }
    Ok(text)
}

/// What a check writes of bytes, or the text of its end where it writes nothing.
pub fn told(alloc: Global, bytes: &[u8]) -> Result<String, Fail> {
    let mut source = MemSource::make(bytes.to_vec(alloc)?, Vec::new(alloc), Vec::new(alloc));
    let mut sink = MemSink::make(vec![in alloc; 0u8; 64]?, Vec::new(alloc));
    match check_run(alloc, &["check"], &mut source, &mut sink) {
        Status::Done => Ok(String::from_str(alloc, str::from_utf8(sink.held())?)?),
        status => Ok(format!(in alloc; "{status}")?),
    }
}

/// What a check writes of pairs.
pub fn verdict(alloc: Global, lines: &str) -> Result<String, Fail> {
    let (bytes, _) = items_of(alloc, lines)?;
    told(alloc, &bytes)
}
