//! Frames of many sizes, written and read in odd pieces.

use kd_outside::{Failed, Source, UnixLink, write_whole};
use std::alloc::{AllocError, Global};

/// How many frames go each way.
pub(crate) const FRAMES: usize = 10_000;

/// The longest frame.
pub(crate) const LONGEST: usize = 131_072;

/// How many places a frame may begin at in the pattern.
const SHIFTS: usize = 251;

/// The length of a frame: one in 500 is long, the first one the longest, and the others are short.
fn length_of(frame: usize) -> usize {
    if frame % 500 == 0 {
        LONGEST.saturating_sub((frame / 500).saturating_mul(6_551))
    } else {
        frame % 253 + 1
    }
}

/// The bytes of which all frames are parts: those of neighbours differ.
pub(crate) fn pattern(alloc: Global) -> Result<Vec<u8>, AllocError> {
    let mut bytes = Vec::new(alloc);
    for at in 0..LONGEST + SHIFTS {
        bytes.push((at % SHIFTS) as u8)?;
    }
    Ok(bytes)
}

/// A part of some bytes, as much of it as there is.
fn part(bytes: &[u8], from: usize, count: usize) -> &[u8] {
    let rest = bytes.split_at(from.min(bytes.len())).1;
    rest.split_at(count.min(rest.len())).0
}

/// The bytes of a frame.
pub(crate) fn frame_of(pattern: &[u8], frame: usize) -> &[u8] {
    part(pattern, frame % SHIFTS, length_of(frame))
}

/// Writes a frame in pieces of this length.
pub(crate) fn write_frame(link: &mut UnixLink, frame: &[u8], piece: usize) -> Result<(), Failed> {
    for piece in frame.chunks(piece.max(1)) {
        write_whole(link, piece)?;
    }
    Ok(())
}

/// How many of the next bytes were read, where they are the first of these.
fn read_some(link: &mut UnixLink, wanted: &[u8], into: &mut [u8]) -> Option<usize> {
    let room = wanted.len().min(into.len());
    let count = link.read(into.split_at_mut(room).0).ok()?;
    if count == 0 || part(into, 0, count) != part(wanted, 0, count) {
        return None;
    }
    Some(count)
}

/// Whether what comes next is this frame. A read asks for no more than it has left, and for no more
/// than there is room.
pub(crate) fn comes(link: &mut UnixLink, frame: &[u8], into: &mut [u8]) -> bool {
    let mut rest = frame;
    for _ in 0..frame.len() {
        if rest.is_empty() {
            return true;
        }
        let Some(count) = read_some(link, rest, into) else {
            return false;
        };
        rest = rest.split_at(count.min(rest.len())).1;
    }
    rest.is_empty()
}
