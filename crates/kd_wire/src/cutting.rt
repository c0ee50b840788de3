//! Frames by their first words alone.

ghost use Rattle.std.specs.Prelude.{◌≡◌, ◌≤◌, length};
ghost use Rattle.kd_wire.specs.Frames.{cut_of, command_word, caller_word};

use crate::frame::{Cut, Head};
use kd_item::word_at;

/// The least frame: the four words of its head.
pub(crate) const HEAD: usize = 32;

/// The greatest frame. It bounds what a reader of frames keeps while it waits for the end of one,
/// and is twice the greatest message.
pub(crate) const LIMIT: usize = 131_072;

/// What the bytes begin with, judged by their size word.
pub fn cut(bytes: &[u8]) -> Cut
    ensures { result ≡ cut_of bytes.now }
{
    if bytes.len() < 8 {
        return Cut::Need { total: 8 };
    }
    let size = word_at(bytes, 0);
    if size < HEAD as u64 || size > LIMIT as u64 || size % 8 != 0 {
        return Cut::Bad;
    }
    if (bytes.len() as u64) < size {
        return Cut::Need { total: size };
    }
    Cut::Frame { size }
}

/// The words of a frame's head, also of a frame that is refused.
pub fn head(frame: &[u8]) -> Head
    requires { 32 ≤ length frame.now }
    ensures command { result.command ≡ command_word frame.now }
    ensures caller { result.caller ≡ caller_word frame.now }
{
    Head {
        command: word_at(frame, 8),
        caller: word_at(frame, 16),
    }
}
