//! Where the next frame or reply ends.

ghost use Rattle.std.specs.Prelude.{◌≡◌, ◌≤◌, length, take, IfSome, IfNone};
ghost use Rattle.kd_lines.specs.Pieces.{most_of, IsPiece, HasNoPiece};

use crate::kind::Kind;
use kd_item::word_at;

/// The greatest size: a frame is no longer than its reader keeps, a reply than a run takes.
fn most_of(kind: Kind) -> u64
    ensures { result ≡ most_of kind }
{
    match kind {
        Kind::Frames => 131_072,
        Kind::Replies => 16_777_216,
    }
}

/// The size of the whole frame or reply at the front, where one stands there.
pub(crate) fn piece_size(kind: Kind, bytes: &[u8]) -> Option<usize>
    ensures inside { IfSome result (λ n. n ≤ length bytes.now) }
    ensures piece { IfSome result (λ n. IsPiece kind (take n bytes.now)) }
    ensures some { IfSome result (λ n. 32 ≤ n) }
    ensures none { IfNone result (HasNoPiece kind bytes.now) }
{
    if bytes.len() < 8 {
        return None;
    }
    let size = word_at(bytes, 0);
    if size < 32 {
        return None;
    }
    if size > most_of(kind) {
        return None;
    }
    if size % 8 != 0 {
        return None;
    }
    if (bytes.len() as u64) < size {
        return None;
    }
    Some(size as usize)
}
