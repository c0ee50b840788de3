//! Lines of frames.

use crate::runs::{made, shown};
use kd_lines::{End, Kind};
use std::alloc::Global;
use std::test::Fail;

/// A line of each command, each flag and each item, as it is shown.
const LINES: &str = r#"c1 HELLO size=4096
c64 HELLO size=1048576 send=15 receive=8 BUS "1000-replay" ENDPOINT "bus" DESCRIPTION "a \x22b\x22 \x5c"
c2 HELLO +ACTIVATOR size=256 NAME "a.b"
c3 HELLO +HOLDER size=0 NAME "a.*" ACCESS user=1000 own ACCESS group=100 talk NAME "a.b" ACCESS world=0 see
c4 HELLO +MONITOR size=65536
c1 SEND to=2
c1 SEND to=1 PAYLOAD "hi"
c1 SEND +EXPECT_REPLY +NO_AUTO_START to=2 from=9 priority=-3 type=7 cookie=11 last=100 PAYLOAD "" PAYLOAD "\x00\xff" DST_NAME "a.b"
c1 SEND +SIGNAL to=any SEALED seal=1 start=8 length=16 FILTER generation=1 "\x00@\x7f~"
c1 SEND DST_NAME "a.b"
c1 RECV
c1 RECV +PEEK +PRIORITY limit=-9223372036854775808
c1 RECV +DROP limit=9223372036854775807
c1 READ slice=0
c1 READ +SHARED slice=255
c1 FREE slice=18446744073709551615
c1 BYEBYE
c1 CLOSE
c1 NAME_ACQUIRE NAME "a.b"
c1 NAME_ACQUIRE +REPLACE +ALLOW +QUEUE NAME "a.b"
c1 NAME_RELEASE NAME ""
c1 NAME_LIST
c1 NAME_LIST +UNIQUE +NAMES +ACTIVATORS +QUEUED
c1 MATCH_ADD cookie=0
c1 MATCH_ADD +REPLACE cookie=7 MASK "\x01\x02" NAME "" ID id=any
c1 MATCH_ADD cookie=1 ID_ADD id=any ID_REMOVE id=3
c1 MATCH_ADD cookie=1 NAME_ADD old=0 new=any "a.b" NAME_REMOVE old=any new=0 "" NAME_CHANGE old=1 new=2 "c.d"
c1 MATCH_REMOVE cookie=7
c1 POLICY_SET
c1 POLICY_SET NAME "a.b" ACCESS world=0 talk
c5 ENDPOINT_MAKE BUS "1000-replay" ENDPOINT "side" NAME "a.b" ACCESS user=1 see
c0 MAKE_BUS size=64 hashes=8 BUS "1000-mine"
c1 TICK moment=1000
c1 SEAL PAYLOAD "sealed"
c1 UNSEAL seal=1
c1 ENTER uid=0 gid=0
c1 ENTER +PRIVILEGED uid=4294967295 gid=100
"#;

/// A byte of a frame that is exchanged, by its place, how the frame is shown then, and the line of
/// the frame.
const CHANGES: &str = r#"8 99: c1 99 refused Unsupported command=99: c1 RECV
8 15: c1 MAKE_BUS refused Unsupported command=15: c1 RECV
16 65: c65 RECV refused Malformed at=16: c1 RECV
16 0: c0 ENTER refused Unsupported command=19: c1 ENTER uid=1 gid=1
24 8: c1 RECV refused BadFlags: c1 RECV
24 3: c1 RECV refused BadFlags: c1 RECV
32 89: c1 SEND refused Malformed at=32: c1 SEND to=1 PAYLOAD "hi"
96 15: c1 SEND refused Malformed at=96: c1 SEND to=1 PAYLOAD "hi"
104 6: c1 SEND refused Malformed at=96: c1 SEND to=1 PAYLOAD "hi"
119 1: c1 SEND refused Malformed at=96: c1 SEND to=1 PAYLOAD "hi"
56 0: c1 SEND refused MissingItem: c1 SEND to=1 PAYLOAD "hi"
40 8: c1 SEND refused BadFlags: c1 SEND to=1 PAYLOAD "hi"
8 7: c1 CLOSE refused Malformed at=32: c1 RECV
32 1: c1 HELLO refused BadFlags: c1 HELLO size=4096
40 16: c1 HELLO refused BadFlags: c1 HELLO size=4096
"#;

#[test]
fn lines_make_frames_that_are_shown_in_the_same_lines(rt: HostRuntime) -> Result<(), Fail> {
    let alloc = rt.alloc();
    for line in LINES.lines() {
        let text = format!(in alloc; "{line}\n")?;
        let frame = made(alloc, text.as_bytes())?;
        assert_eq!(rt; frame.end, End::Done, "of {line}");
        let lines = shown(alloc, Kind::Frames, &frame.written)?;
        assert_eq!(rt; lines.end, End::Done, "of {line}");
        assert!(rt; lines.written.as_slice() == text.as_bytes(), "of {line}");
    }
    Ok(())
}

/// The frame of a line with one byte exchanged: `PLACE BYTE`.
fn changed_frame(alloc: Global, change: &str, line: &str) -> Result<Vec<u8>, Fail> {
    let (place, byte) = change.split_once(' ').ok_or("a change without a blank")?;
    let place = place.parse::<usize>()?;
    let mut frame = made(alloc, line.as_bytes())?.written;
    match frame.get_mut(place) {
        Some(old) => *old = byte.parse::<u8>()?,
        None => return Err("a place behind the frame")?,
    }
    Ok(frame)
}

#[test]
fn a_changed_frame_is_refused_with_its_place_and_stands_in_its_line(
    rt: HostRuntime,
) -> Result<(), Fail> {
    let alloc = rt.alloc();
    for row in CHANGES.lines() {
        let (change, rest) = row.split_once(": ").ok_or("a row without a colon")?;
        let (head, line) = rest.split_once(": ").ok_or("a row without a second colon")?;
        let frame = changed_frame(alloc, change, line)?;
        let lines = shown(alloc, Kind::Frames, &frame)?;
        let head = format!(in alloc; "{head} FRAME \"")?;
        assert!(rt; lines.written.starts_with(head.as_bytes()), "of {row}");
        let again = made(alloc, &lines.written)?;
        assert!(rt; again.written == frame, "of {row}");
    }
    Ok(())
}

#[test]
fn bytes_that_are_cut_end_at_the_last_whole_frame(rt: HostRuntime) -> Result<(), Fail> {
    let alloc = rt.alloc();
    let frames = made(alloc, b"c1 RECV\nc1 BYEBYE\n")?.written;
    for size in 0..=frames.len() {
        let (front, _) = frames.split_at(size);
        let lines = shown(alloc, Kind::Frames, front)?;
        let (end, text) = match size {
            0 => (End::Done, ""),
            40 => (End::Done, "c1 RECV\n"),
            72 => (End::Done, "c1 RECV\nc1 BYEBYE\n"),
            1..=39 => (End::BadFrame { at: 0 }, ""),
            _ => (End::BadFrame { at: 40 }, "c1 RECV\n"),
        };
        assert_eq!(rt; lines.end, end, "of {size} bytes");
        assert!(rt;
            lines.written.as_slice() == text.as_bytes(),
            "of {size} bytes"
        );
    }
    Ok(())
}
