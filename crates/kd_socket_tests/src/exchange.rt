//! Frames that go both ways between two links, each in a thread of its own.

use crate::frames::{FRAMES, comes, frame_of, pattern, write_frame};
use kd_outside::{Link, UnixLink};
use std::alloc::Global;
use std::os::unix::net::UnixStream;
use std::test::Fail;
use std::thread;

/// The length of the pieces that go one way: a short one, so that most frames are several pieces.
const SHORT: usize = 97;

/// The length of the pieces that come back: a long one, of which the longest frame is no multiple.
const LONG: usize = 30_011;

/// Reads each frame and answers it with the same frame; gives how many it answered.
fn answer_all(mut link: UnixLink, pattern: &[u8], into: &mut [u8]) -> usize {
    for frame in 0..FRAMES {
        let bytes = frame_of(pattern, frame);
        if !comes(&mut link, bytes, into) {
            return frame;
        }
        let Ok(()) = write_frame(&mut link, bytes, LONG) else {
            return frame;
        };
    }
    match link.finish() {
        Ok(()) => FRAMES,
        Err(_) => 0,
    }
}

/// What the peer does in its thread.
fn peer(alloc: Global, link: UnixLink) -> usize {
    let Ok(pattern) = pattern(alloc) else {
        return 0;
    };
    answer_all(link, &pattern, &mut [0u8; SHORT])
}

#[test]
fn links_over_sockets_carry_frames(rt: HostRuntime) -> Result<(), Fail> {
    let alloc = rt.alloc();
    let (here, there) = UnixStream::pair(&rt)?;
    let mut link = UnixLink::of(alloc, here)?;
    let other = UnixLink::of(alloc, there)?;
    let peer = thread::spawn(&rt, move || peer(alloc, other))?;
    let pattern = pattern(alloc)?;
    let mut into = vec![in alloc; 0u8; LONG]?;
    for frame in 0..FRAMES {
        let bytes = frame_of(&pattern, frame);
        write_frame(&mut link, bytes, SHORT)?;
        assert!(rt; comes(&mut link, bytes, &mut into), "frame {frame}");
    }
    assert_eq!(rt; peer.join(&rt), FRAMES);
    Ok(())
}
