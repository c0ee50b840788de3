//! Reading headers.

ghost use Rattle.std.specs.Prelude.{◌≡◌, ◌^◌, ◌<◌, ◌≤◌, length, IfNone};
ghost use Rattle.kd_item.specs.Spelling.{number};
ghost use Rattle.kd_image.specs.Reading.{header_break, header_of};

use kd_item::word_at;
use kd_types::SendFlags;

/// The eight words in front of an image.
#[derive(Clone, Copy, Debug, PartialEq, Eq)]
pub(crate) struct Header {
    pub(crate) size: u64,
    pub(crate) flags: u64,
    /// The two's complement of the priority.
    pub(crate) priority: u64,
    pub(crate) dst: u64,
    pub(crate) source: u64,
    pub(crate) payload_type: u64,
    pub(crate) cookie: u64,
    pub(crate) last: u64,
}

/// Where the header breaks the format, if it does: the size word where it isn't the size of a
/// header and items that the bytes have, the flags where one is unknown. The other words may be
/// any.
#[tactic(auto, unfolding(crate::specs::Reading::header_break))]
pub(crate) fn find_break(bytes: &[u8]) -> Option<u64>
    ensures fits { length bytes.now < 2 ^ 64 }
    ensures place { result ≡ header_break bytes.now }
    ensures low { IfNone result (64 ≤ number bytes.now) }
    ensures high { IfNone result (number bytes.now ≤ length bytes.now) }
{
    if bytes.len() < 8 {
        return Some(0);
    }
    let size = word_at(bytes, 0);
    if size < 64 {
        return Some(0);
    }
    if (bytes.len() as u64) < size {
        return Some(0);
    }
    if size % 8 != 0 {
        return Some(0);
    }
    if SendFlags::of(word_at(bytes, 8)).is_none() {
        return Some(8);
    }
    None
}

/// The words of a header.
pub(crate) fn read_header(bytes: &[u8]) -> Header
    requires { 64 ≤ length bytes.now }
    ensures { result ≡ header_of bytes.now }
{
    Header {
        size: word_at(bytes, 0),
        flags: word_at(bytes, 8),
        priority: word_at(bytes, 16),
        dst: word_at(bytes, 24),
        source: word_at(bytes, 32),
        payload_type: word_at(bytes, 40),
        cookie: word_at(bytes, 48),
        last: word_at(bytes, 56),
    }
}
