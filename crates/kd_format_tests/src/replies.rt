//! Replies as bytes: each read and written back, and where one breaks the format.

use crate::table::{bytes_of, halves, words_of};
use kd_types::ReplyError;
use kd_wire::{head, read_reply, write_reply};
use std::alloc::Global;
use std::test::Fail;

/// A reply of each command.
const REPLIES: &str = "\
56 1 1 0 1 64 8
32 2 1 0
64 3 1 0 0 0 104 0
144 4 1 0 104 96 0 0 1 1 0 0 0 32 19 2 96 'hi
40 4 1 0 0
48 4 0 0 3 'a.b
32 5 1 0
32 6 1 0
32 7 1 0
40 8 1 0 1
40 8 1 0 2
32 9 1 0
40 10 1 0 0
112 10 1 0 2 35 24 4 1 'a.b 32 24 5 0
32 11 1 0
32 12 1 0
32 13 1 0
32 14 1 0
32 15 0 0
40 16 1 0 5
40 17 1 0 3
32 18 1 0
32 19 1 0
40 2 1 1 any
40 2 1 2 any
40 2 1 10 any
40 2 1 14 any
40 2 1 18 any
40 2 1 22 any
40 2 1 26 any
";

/// Where the words break the format, and they.
const BROKEN: &str = "\
0:
0: 40 2 1 0
8: 8
24: 24 2 1
24: 32 99 1 0
24: 40 2 1 38 0
32: 32 2 1 3
32: 40 2 1 3 1
40: 48 2 1 3 0 0
32: 40 2 1 0 0
48: 48 1 1 0 1 64
32: 40 8 1 0 3
40: 40 4 1 0 3
40: 48 4 1 0 3 0x0100000000622e61
48: 56 4 1 0 3 'a.b 0
40: 40 10 1 0 1
40: 80 10 1 0 0 35 24 4 1 'a.b
80: 80 10 1 0 2 35 24 4 1 'a.b
";

/// Where the bytes break the format; `u64::MAX` where they are a reply, which is written back.
fn breaks_at(alloc: Global, bytes: &[u8]) -> Result<u64, Fail> {
    match read_reply(alloc, bytes) {
        Ok((caller, reply)) => {
            if bytes.len() < 32 || bytes.len() > 4096 {
                return Err("too short or too long")?;
            }
            let mut out = Vec::new(alloc);
            write_reply(&mut out, caller, head(bytes).command, &reply)?;
            if out.as_slice() == bytes {
                Ok(u64::MAX)
            } else {
                Err("other bytes are written back")?
            }
        }
        Err(ReplyError::Bad { at }) => Ok(at),
        Err(ReplyError::OutOfMemory) => Err("out of memory")?,
    }
}

#[test]
fn each_reply_is_read_and_written_back(rt: HostRuntime) -> Result<(), Fail> {
    for line in REPLIES.lines() {
        let bytes = bytes_of(rt.alloc(), line)?;
        assert_eq!(rt; breaks_at(rt.alloc(), &bytes)?, u64::MAX, "of {line}");
    }
    for number in 1..38u64 {
        let words = format!(in rt.alloc(); "40 99 7 {number} 0")?;
        let bytes = bytes_of(rt.alloc(), words.as_str())?;
        assert_eq!(rt; breaks_at(rt.alloc(), &bytes)?, u64::MAX, "of {words}");
    }
    Ok(())
}

#[test]
fn a_broken_reply_is_bad_at_its_place(rt: HostRuntime) -> Result<(), Fail> {
    for line in BROKEN.lines() {
        let (place, words) = halves(line)?;
        let at = breaks_at(rt.alloc(), &bytes_of(rt.alloc(), words)?)?;
        assert_eq!(rt;
            words_of(rt.alloc(), place)?.first(),
            Some(&at),
            "of {line}"
        );
    }
    Ok(())
}
