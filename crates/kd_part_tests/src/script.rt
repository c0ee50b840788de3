//! Scripts of calls.

use std::alloc::Global;
use std::test::Fail;

/// A part that scripts call.
pub trait Part {
    /// Does what the line says, and tells the answer.
    fn act(&mut self, alloc: Global, line: &str) -> Result<String, Fail>;
}

/// Plays a script; it fails at the first line whose answer is another than the one behind its
/// arrow, or than none where it has no arrow.
pub fn play<P: Part>(alloc: Global, part: &mut P, script: &str) -> Result<(), Fail> {
    for line in script.lines() {
        let (call, wanted) = line.split_once(" -> ").unwrap_or((line, ""));
        let answer = part.act(alloc, call)?;
        if answer.as_str() != wanted {
            return Err(Fail::new(format!(in alloc; "{call} -> {answer}")?));
        }
    }
    Ok(())
}

/// A number; `any` is all ones.
pub fn number(text: &str) -> Result<u64, Fail> {
    if text == "any" {
        return Ok(u64::MAX);
    }
    if let Some(digits) = text.strip_prefix("0x") {
        return Ok(u64::from_str_radix(digits, 16)?);
    }
    Ok(text.parse::<u64>()?)
}
