//! Frames or replies, shown line by line.

ghost use Rattle.std.specs.Prelude.{◌≡◌, ◌≤◌, length};
ghost use Rattle.kd_outside.specs.Causes.{Rose};
ghost use Rattle.kd_lines.specs.Lines.{ShowsSo};

use crate::end::End;
use crate::kind::Kind;
use crate::lines::put_line;
use crate::pieces::piece_size;
use kd_outside::{Sink, write_whole};
use std::alloc::Global;

/// Writes a line for each frame or reply, whole before the next one is looked at.
///
/// It ends `Done` where the bytes are whole ones, else `BadFrame` with the first place where none
/// stands, and earlier only where the sink fails or memory is wanting.
pub fn show<K: Sink>(alloc: Global, kind: Kind, bytes: &[u8], sink: &mut K) -> End
    requires { length bytes.now ≤ 16777216 }
    ensures shown { ShowsSo kind bytes.now (K.held sink.old) (K.held sink.new) result }
    ensures fault { result ≡ End.WriteFault → Rose (K.faults sink.old) (K.faults sink.new) }
    ensures later { K.faults sink.old ≤ K.faults sink.new }
{
    let mut rest = bytes;
    let mut at = 0;
    let mut line = Vec::new(alloc);
    'pieces: while let Some(size) = piece_size(kind, rest) {
        let (piece, behind) = rest.split_at(size);
        line.clear();
        let Ok(()) = put_line(&mut line, alloc, kind, piece) else {
            return End::OutOfMemory;
        };
        let Ok(()) = write_whole(sink, &line) else {
            return End::WriteFault;
        };
        rest = behind;
        at += size;
    }
    if rest.is_empty() {
        End::Done
    } else {
        End::BadFrame { at: at as u64 }
    }
}
