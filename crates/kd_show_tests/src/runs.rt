//! Runs over bytes in memory.

ghost use Rattle.std.specs.Prelude.{◌≤◌, length, IfOk};

use kd_lines::{End, Kind, make, show};
use kd_outside::MemSink;
use std::alloc::Global;
use std::test::Fail;

/// How a run ended, and what it wrote.
#[derive(Debug, Drop)]
pub struct Ran {
    pub end: End,
    pub written: Vec<u8>,
}

/// Bytes that are short enough for a run.
fn short(bytes: &[u8]) -> Result<&[u8], Fail>
    ensures { IfOk result (λ short. length short.now ≤ 4096) }
{
    if bytes.len() > 4096 {
        return Err("more bytes than a test has")?;
    }
    Ok(bytes)
}

/// The bytes, shown as what they are.
pub fn shown(alloc: Global, kind: Kind, bytes: &[u8]) -> Result<Ran, Fail> {
    let mut sink = MemSink::make(vec![in alloc; 0u8; 16_384]?, Vec::new(alloc));
    let end = show(alloc, kind, short(bytes)?, &mut sink);
    Ok(Ran {
        end,
        written: Vec::from_slice(alloc, sink.held())?,
    })
}

/// The frames of lines.
pub fn made(alloc: Global, lines: &[u8]) -> Result<Ran, Fail> {
    let mut sink = MemSink::make(vec![in alloc; 0u8; 16_384]?, Vec::new(alloc));
    let end = make(alloc, short(lines)?, &mut sink);
    Ok(Ran {
        end,
        written: Vec::from_slice(alloc, sink.held())?,
    })
}
