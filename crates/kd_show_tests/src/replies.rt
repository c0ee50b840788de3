//! Lines of replies.

use crate::runs::shown;
use kd_lines::{End, Kind};
use std::alloc::Global;
use std::test::Fail;

/// Replies as words, and their lines. A word of letters begins with `'`.
const REPLIES: &str = r#"56 1 1 0 1 64 8: c1 HELLO ok id=1 size=64 hashes=8
32 2 1 0: c1 SEND ok
64 3 1 0 0 0 104 5: c1 RECV ok slice=0 offset=0 length=104 dropped=5
144 4 1 0 104 96 0 0 1 1 0 0 0 32 19 2 96 'hi: c1 READ ok IMAGE to=1 from=1 PAYLOAD "hi"
168 4 1 0 128 120 4 -3 any 2 7 9 3 40 21 1 100 1 24 23 5: c1 READ ok BYTES "x
168 4 1 0 128 128 4 -3 any 2 7 9 3 40 21 1 100 1 24 23 5: c1 READ ok IMAGE +SIGNAL to=any from=2 priority=-3 type=7 cookie=9 last=3 CREDS +PRIVILEGED uid=1 gid=100 MOMENT moment=5
128 4 1 0 88 88 0 0 any 0 0 0 0 24 12 2: c1 READ ok IMAGE to=any ID_ADD id=2
144 4 1 0 104 104 0 0 any 0 0 0 0 35 14 0 2 'a.b: c1 READ ok IMAGE to=any NAME_ADD old=0 new=2 "a.b"
120 4 1 0 80 80 0 0 1 0 0 0 7 16 17: c1 READ ok IMAGE to=1 last=7 REPLY_TIMEOUT cookie=7
40 4 1 0 0: c1 READ ok BYTES ""
48 4 64 0 3 'a.b: c64 READ ok BYTES "a.b"
32 5 1 0: c1 FREE ok
32 6 1 0: c1 BYEBYE ok
32 7 1 0: c1 CLOSE ok
40 8 1 0 1: c1 NAME_ACQUIRE ok owned
40 8 1 0 2: c1 NAME_ACQUIRE ok queued
40 10 1 0 0: c1 NAME_LIST ok
112 10 1 0 2 35 24 4 1 'a.b 32 24 5 0: c1 NAME_LIST ok LISTED id=4 standing=1 "a.b" LISTED id=5 standing=0 ""
40 16 1 0 5: c1 TICK ok moment=5
40 17 1 0 3: c1 SEAL ok seal=3
40 2 1 1 16: c1 SEND refused Malformed at=16
40 99 1 2 99: c1 99 refused Unsupported command=99
40 2 1 10 7: c1 SEND refused NameMoved owner=7
40 8 1 11 0: c1 NAME_ACQUIRE refused NameTaken
40 3 1 18 2: c1 RECV refused NoMessage dropped=2
40 8 1 14 64: c1 NAME_ACQUIRE refused TooMany limit=64
40 8 1 22 3: c1 NAME_ACQUIRE refused Busy slice=3
32 2 1 3: c1 SEND broken at=32 FRAME "
40 8 1 0 3: c1 NAME_ACQUIRE broken at=32 FRAME "
"#;

/// A word of a table.
fn word_of(text: &str) -> Result<u64, Fail> {
    if text == "any" {
        return Ok(u64::MAX);
    }
    if let Some(letters) = text.strip_prefix('\'') {
        return Ok(
            letters
                .bytes()
                .rev()
                .fold(0, |word, byte| (word << 8) | u64::from(byte)),
        );
    }
    match text.parse::<u64>() {
        Ok(word) => Ok(word),
        Err(_) => Ok(text.parse::<i64>()?.cast_unsigned()),
    }
}

/// The bytes of words, the lowest byte of each first.
fn bytes_of(alloc: Global, words: &str) -> Result<Vec<u8>, Fail> {
    let mut bytes = Vec::new(alloc);
    for text in words.split_whitespace() {
        bytes.extend_from_slice(&word_of(text)?.to_le_bytes())?;
    }
    Ok(bytes)
}

#[test]
fn replies_are_told_in_lines(rt: HostRuntime) -> Result<(), Fail> {
    let alloc = rt.alloc();
    for row in REPLIES.lines() {
        let (words, line) = row.split_once(": ").ok_or("a row without a colon")?;
        let told = shown(alloc, Kind::Replies, &bytes_of(alloc, words)?)?;
        assert_eq!(rt; told.end, End::Done, "of {row}");
        assert!(rt; told.written.starts_with(line.as_bytes()), "of {row}");
    }
    Ok(())
}
