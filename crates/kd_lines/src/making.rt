//! Lines, made into frames.

ghost use Rattle.std.specs.Prelude.{◌≡◌, ◌≤◌, [], false, length, vec_len, OnOk, IsTrue};
ghost use Rattle.kd_outside.specs.Causes.{Rose};
ghost use Rattle.kd_lines.specs.Pieces.{IsPiece};
ghost use Rattle.kd_lines.specs.Making.{IsMade, MakesSo, says_nothing};

use crate::end::End;
use crate::kind::Kind;
use crate::pieces::piece_size;
use crate::reading::put_frame;
use crate::tokens::{LineError, line_size, says_nothing};
use kd_outside::{Sink, write_whole};
use std::alloc::Global;

/// Whether bytes are one whole frame.
fn is_frame(bytes: &[u8]) -> bool
    ensures { IsTrue result → IsPiece Kind.Frames bytes.now }
{
    match piece_size(Kind::Frames, bytes) {
        Some(size) => size == bytes.len(),
        None => false,
    }
}

/// Puts what a line comes to into a place that is empty.
fn put_made(out: &mut Vec<u8>, alloc: Global, line: &[u8]) -> Result<(), LineError>
    requires { out.old.items ≡ [] }
    ensures made { OnOk result (IsMade line.now out.new.items) }
    ensures bad { result ≡ Err LineError.Bad → says_nothing line.now ≡ false }
{
    if says_nothing(line) {
        return Ok(());
    }
    put_frame(out, alloc, line)?;
    if is_frame(out) {
        Ok(())
    } else {
        Err(LineError::Bad)
    }
}

/// Writes the frame of each line that says something, whole before the next one is looked at.
///
/// It ends `Done` where each such line has a frame, else `BadLine` with the first that has none,
/// and earlier only where the sink fails or memory is wanting.
pub fn make<K: Sink>(alloc: Global, bytes: &[u8], sink: &mut K) -> End
    requires { length bytes.now ≤ 16777216 }
    ensures made { MakesSo bytes.now (K.held sink.old) (K.held sink.new) result }
    ensures fault { result ≡ End.WriteFault → Rose (K.faults sink.old) (K.faults sink.new) }
    ensures later { K.faults sink.old ≤ K.faults sink.new }
{
    let mut rest = bytes;
    let mut at = 0;
    let mut frame = Vec::new(alloc);
    'lines: while let Some(size) = line_size(rest) {
        let (line, behind) = rest.split_at(size);
        frame.clear();
        match put_made(&mut frame, alloc, line) {
            Ok(()) => {}
            Err(LineError::Bad) => return End::BadLine { at: at as u64 },
            Err(LineError::OutOfMemory) => return End::OutOfMemory,
        }
        let Ok(()) = write_whole(sink, &frame) else {
            return End::WriteFault;
        };
        rest = behind;
        at += size;
    }
    End::Done
}
