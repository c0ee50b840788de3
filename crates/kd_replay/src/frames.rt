//! Where the next frame ends.

ghost use Rattle.std.specs.Prelude.{◌≤◌, length, take, IfSome, IfNone};
ghost use Rattle.kd_replay.specs.Frames.{IsFrame, HasNoFrame};

use kd_wire::{Cut, cut};

/// The size of the whole frame at the front, where one stands there.
pub fn frame_size(bytes: &[u8]) -> Option<usize>
    ensures inside { IfSome result (λ n. n ≤ length bytes.now) }
    ensures frame { IfSome result (λ n. IsFrame (take n bytes.now)) }
    ensures some { IfSome result (λ n. 32 ≤ n) }
    ensures none { IfNone result (HasNoFrame bytes.now) }
{
    match cut(bytes) {
        Cut::Frame { size } => Some(size as usize),
        _ => None,
    }
}
