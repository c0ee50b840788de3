//! Frames as bytes: each command read and written back, and what a session's frames are refused
//! for.

use crate::table::{bytes_of, halves, words_of};
use kd_types::Refusal;
use kd_wire::{Cut, Port, cut, read_command, write_command};
use std::test::Fail;

/// A frame of each command, and of each kind of item that it takes.
const COMMANDS: &str = "\
56 1 1 0 4096 0 0
80 1 1 2 256 15 15 19 6 'a.b
120 1 1 4 0 0 0 19 6 'a.b 40 7 1 2 1000
128 1 1 8 1048576 1 8 19 8 'a.b 19 9 'a.b 19 10 'a.b
120 2 1 0 88 0 0 1 0 0 0 0 18 1 'hi
128 2 1 0 96 4 any any 0 7 9 0 32 4 0 255
160 2 64 0 128 1 0 0 0 0 5 100 19 3 'a.b 40 2 1 0 16
40 3 1 4 any
40 4 1 1 0
40 5 1 0 0
32 6 1 0
32 7 1 0
56 8 1 7 19 6 'a.b
56 9 1 0 19 6 'a.b
32 10 1 15
272 11 1 1 77 24 5 255 19 6 'a.b 24 11 3 24 12 any 24 13 2 35 14 1 2 'a.b 35 15 1 0 'a.b 32 16 1 2
40 12 1 0 77
136 13 1 0 19 6 'a.b 40 7 3 1 any 40 7 2 3 100
144 14 1 0 19 8 'a.b 19 9 'a.b 19 6 'a.b 40 7 1 1 5
40 16 1 0 123
56 17 1 0 18 1 'hi
48 17 1 0 16 1
40 18 1 0 1
56 19 1 0 1000 4294967295 1
";

/// Frames of a session, whose caller is none: the number and the value of the refusal, 0 and 0
/// where there is none.
const SESSION_FRAMES: &str = "\
0 0: 72 15 0 0 64 8 19 8 'a.b
3 0: 72 15 0 0 0 8 19 8 'a.b
3 0: 72 15 0 0 12 8 19 8 'a.b
3 0: 72 15 0 0 520 8 19 8 'a.b
3 0: 72 15 0 0 64 0 19 8 'a.b
3 0: 72 15 0 0 64 9 19 8 'a.b
1 16: 32 6 1 0
2 19: 56 19 0 0 1 1 0
2 99: 32 99 0 0
";

/// The number and the value of a frame's refusal; of a frame that is written back as it was read 0
/// and 0.
fn refusal_of(rt: &HostRuntime, port: Port, words: &str) -> Result<(u64, u64), Fail> {
    let bytes = bytes_of(rt.alloc(), words)?;
    if cut(&bytes)
        != (Cut::Frame {
            size: bytes.len() as u64,
        })
    {
        return Err("no whole frame")?;
    }
    match read_command(rt.alloc(), &bytes, port) {
        Ok((caller, command)) => {
            let mut out = Vec::new(rt.alloc());
            write_command(&mut out, caller, &command)?;
            if out == bytes {
                Ok((0, 0))
            } else {
                Err("other bytes are written back")?
            }
        }
        Err(Refusal::OutOfMemory) => Err("out of memory")?,
        Err(why) => Ok((why.number(), why.value())),
    }
}

#[test]
fn each_command_is_read_and_written_back(rt: HostRuntime) -> Result<(), Fail> {
    for line in COMMANDS.lines() {
        assert_eq!(rt; refusal_of(&rt, Port::Replay, line)?, (0, 0), "of {line}");
    }
    Ok(())
}

#[test]
fn a_session_has_no_callers_and_makes_buses(rt: HostRuntime) -> Result<(), Fail> {
    for line in SESSION_FRAMES.lines() {
        let (why, words) = halves(line)?;
        let (number, value) = refusal_of(&rt, Port::Session, words)?;
        assert!(rt;
            words_of(rt.alloc(), why)?.as_slice() == [number, value].as_slice(),
            "of {line}"
        );
    }
    Ok(())
}

#[test]
fn bytes_are_cut_by_their_size_word(rt: HostRuntime) -> Result<(), Fail> {
    for (words, expected) in [
        ("", Cut::Need { total: 8 }),
        ("32 6", Cut::Need { total: 32 }),
        ("32 6 1 0 9", Cut::Frame { size: 32 }),
        ("24 6 1", Cut::Bad),
        ("36 6 1 0 0", Cut::Bad),
        ("131080", Cut::Bad),
    ] {
        assert_eq!(rt; cut(&bytes_of(rt.alloc(), words)?), expected, "of {words}");
    }
    Ok(())
}
