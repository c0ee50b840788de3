//! Images: the words of messages and notices.

use crate::table::{bytes_of, halves, words_of};
use kd_image::{
    Attached, Message, Notice, SealedRange, build, build_notice, image_len, is_short, read_image,
};
use kd_types::{
    Blob, BlobList, ConnId, Cookie, Creds, Moment, ReplyError, SendFlags, Text, TextList,
};
use std::alloc::Global;
use std::test::Fail;

/// The destination of what goes to all.
const ANY: u64 = u64::MAX;

/// A message with these payloads, one of them behind each space.
fn message(alloc: Global, payloads: &str) -> Result<Message, Fail> {
    let mut blobs = Vec::new(alloc);
    for payload in payloads.split_whitespace() {
        blobs
            .push(Blob::of(payload.as_bytes().to_vec(alloc)?))
            .map_err(|_| "no memory")?;
    }
    Ok(Message {
        flags: SendFlags(0),
        priority: 0,
        payload_type: 0,
        cookie: Cookie(0),
        last: 0,
        dst_name: None,
        payloads: BlobList::of(blobs),
        sealed: None,
    })
}

fn nothing(alloc: Global) -> Attached {
    Attached {
        creds: None,
        names: TextList::of(Vec::new(alloc)),
        description: None,
        moment: None,
    }
}

fn creds(uid: u32, gid: u32, privileged: bool) -> Option<Creds> {
    Some(Creds {
        uid,
        gid,
        privileged,
    })
}

/// Whether header and items of the image from connection 1 are these words, and the whole image is
/// so long.
fn is_built(
    alloc: Global,
    message: &Message,
    dst: u64,
    attached: &Attached,
    words: &str,
    len: u64,
) -> Result<bool, Fail> {
    if !is_short(message, attached) {
        return Err("too long")?;
    }
    let front = build(alloc, message, ConnId(1), dst, attached)?;
    Ok(front == bytes_of(alloc, words)? && image_len(message, attached) == len)
}

#[test]
fn payloads_begin_behind_header_and_items(rt: HostRuntime) -> Result<(), Fail> {
    let alloc = rt.alloc();
    let hi = message(alloc, "hi")?;
    assert!(rt;
        is_built(
            alloc,
            &hi,
            1,
            &nothing(alloc),
            "96 0 0 1 1 0 0 0 32 19 2 96",
            104
        )?
    );
    let attached = Attached {
        creds: creds(1000, 1000, false),
        ..nothing(alloc)
    };
    let words = "136 0 0 1 1 0 0 0 40 21 1000 1000 0 32 19 2 136";
    assert!(rt; is_built(alloc, &hi, 1, &attached, words, 144)?);
    Ok(())
}

#[test]
fn all_that_is_attached_stands_in_order(rt: HostRuntime) -> Result<(), Fail> {
    let alloc = rt.alloc();
    let mut names = Vec::new(alloc);
    names
        .push(Text::of(alloc, b"a.b")?)
        .map_err(|_| "no memory")?;
    names
        .push(Text::of(alloc, b"a.c")?)
        .map_err(|_| "no memory")?;
    let attached = Attached {
        creds: creds(7, 8, true),
        names: TextList::of(names),
        description: Some(Text::of(alloc, b"")?),
        moment: Some(Moment(10)),
    };
    let called = Message {
        priority: -2,
        dst_name: Some(Text::of(alloc, b"d.e")?),
        ..message(alloc, "")?
    };
    let words =
        "216 0 0xfffffffffffffffe 9 1 0 0 0 40 21 7 8 1 19 22 'a.b 19 22 'a.c 16 10 24 23 10 \
                 19 3 'd.e";
    assert!(rt; is_built(alloc, &called, 9, &attached, words, 216)?);
    Ok(())
}

#[test]
fn a_call_by_name_names_it(rt: HostRuntime) -> Result<(), Fail> {
    let alloc = rt.alloc();
    let call = Message {
        flags: SendFlags(1),
        cookie: Cookie(1),
        last: 1000,
        dst_name: Some(Text::of(alloc, b"org.freedesktop.login1")?),
        ..message(alloc, "ListSessions")?
    };
    let words = "136 1 0 1 1 0 1 1000 38 3 'org.free 'desktop. 'login1 32 19 12 136";
    assert!(rt; is_built(alloc, &call, 1, &nothing(alloc), words, 152)?);
    let words = "96 0 0 any 1 0 0 0 32 19 10 96";
    let signal = message(alloc, "SessionNew")?;
    assert!(rt; is_built(alloc, &signal, ANY, &nothing(alloc), words, 112)?);
    Ok(())
}

/// Header and items of sixteen payloads, with a range behind five of them.
const SIXTEEN: &str = "\
608 0 0 1 1 0 0 0 32 19 3 608 32 19 8 616 32 19 1 624 32 19 1 632 32 19 1 640 32 20 0 6 32 19 1 648 \
32 19 1 656 32 19 1 664 32 19 1 672 32 19 1 680 32 19 1 688 32 19 1 696 32 19 1 704 32 19 1 712 \
32 19 1 720 32 19 1 728";

#[test]
fn a_sealed_range_stands_alone_or_among_payloads(rt: HostRuntime) -> Result<(), Fail> {
    let alloc = rt.alloc();
    let sealed = |place: u32| Some(SealedRange {
        place,
        start: 0,
        length: 6,
    });
    let alone = Message {
        sealed: sealed(0),
        ..message(alloc, "")?
    };
    let words = "96 0 0 1 1 0 0 0 32 20 0 6";
    assert!(rt; is_built(alloc, &alone, 1, &nothing(alloc), words, 96)?);
    let among = Message {
        sealed: sealed(5),
        ..message(alloc, "one eight-by 3 4 5 6 7 8 9 a b c d e f g")?
    };
    assert!(rt; is_built(alloc, &among, 1, &nothing(alloc), SIXTEEN, 736)?);
    Ok(())
}

/// Whether the notice's image is these words.
fn is_told(alloc: Global, notice: &Notice, dst: u64, words: &str) -> Result<bool, Fail> {
    Ok(build_notice(alloc, notice, dst)? == bytes_of(alloc, words)?)
}

#[test]
fn each_notice_has_one_item(rt: HostRuntime) -> Result<(), Fail> {
    let alloc = rt.alloc();
    let (id, old, new, cookie) = (ConnId(2), ConnId(1), ConnId(0), Cookie(7));
    let name = Text::of(alloc, b"a.b")?;
    assert!(rt;
        is_told(
            alloc,
            &Notice::IdAdd { id },
            5,
            "88 0 0 any 0 0 0 0 24 12 2"
        )?
    );
    assert!(rt;
        is_told(
            alloc,
            &Notice::IdRemove { id },
            5,
            "88 0 0 any 0 0 0 0 24 13 2"
        )?
    );
    let words = "104 0 0 any 0 0 0 0 35 14 1 0 'a.b";
    assert!(rt; is_told(alloc, &Notice::NameAdd { old, new, name }, ANY, words)?);
    let name = Text::of(alloc, b"a.b")?;
    let words = "104 0 0 any 0 0 0 0 35 15 1 0 'a.b";
    assert!(rt; is_told(alloc, &Notice::NameRemove { old, new, name }, ANY, words)?);
    let name = Text::of(alloc, b"a.b")?;
    let words = "104 0 0 any 0 0 0 0 35 16 1 0 'a.b";
    assert!(rt; is_told(alloc, &Notice::NameChange { old, new, name }, ANY, words)?);
    assert!(rt;
        is_told(
            alloc,
            &Notice::ReplyTimeout { cookie },
            1,
            "80 0 0 1 0 0 0 7 16 17"
        )?
    );
    assert!(rt;
        is_told(
            alloc,
            &Notice::ReplyDead { cookie },
            1,
            "80 0 0 1 0 0 0 7 16 18"
        )?
    );
    Ok(())
}

/// An image of a described message, sent at moment 5, with the payloads `one` and `eight by`.
const DESCRIBED: &str = "\
176 0 any 9 1 2 3 4 19 10 'abc 24 23 5 32 19 3 176 32 19 8 184 'one 0x7962207468676965";

#[test]
fn an_image_says_what_was_sent(rt: HostRuntime) -> Result<(), Fail> {
    let alloc = rt.alloc();
    let image = read_image(alloc, &bytes_of(alloc, DESCRIBED)?).map_err(|_| "not read")?;
    assert_eq!(rt;
        (image.size, image.priority, image.dst, image.source),
        (176, -1, 9, ConnId(1))
    );
    assert_eq!(rt;
        (image.payload_type, image.cookie, image.last),
        (2, Cookie(3), 4)
    );
    assert_eq!(rt; image.attached.moment, Some(Moment(5)));
    let [one, two] = image.payloads.blobs() else {
        return Err("two payloads")?;
    };
    assert!(rt; one.bytes() == b"one".as_slice() && two.bytes() == b"eight by".as_slice());
    let described = image.attached.description.as_ref().map(Text::bytes);
    assert_eq!(rt; described, Some(b"abc".as_slice()));
    Ok(())
}

/// Where these bytes break the format; `u64::MAX` where they are an image.
fn breaks_at(alloc: Global, bytes: &[u8]) -> Result<u64, Fail> {
    match read_image(alloc, bytes) {
        Ok(_) => Ok(u64::MAX),
        Err(ReplyError::Bad { at }) => Ok(at),
        Err(ReplyError::OutOfMemory) => Err("out of memory")?,
    }
}

/// Where the described message breaks the format with another word at a place, and the place and
/// the word.
const DAMAGES: &str = "\
0: 0 200
0: 0 56
0: 0 175
8: 1 8
64: 8 1000
64: 8 15
64: 10 0x0100636261
64: 10 0xff6261
88: 12 10
88: 12 99
88: 12 12
88: 9 3
112: 17 184
144: 21 176
184: 20 9
144: 16 9
176: 22 0x01656e6f
";

#[test]
fn each_damage_is_found_where_it_is(rt: HostRuntime) -> Result<(), Fail> {
    let alloc = rt.alloc();
    for line in DAMAGES.lines() {
        let (place, damage) = halves(line)?;
        let damage = words_of(alloc, damage)?;
        let [index, other] = damage.as_slice() else {
            return Err("a place and a word")?;
        };
        let mut image = Vec::new(alloc);
        for (at, word) in words_of(alloc, DESCRIBED)?.iter().enumerate() {
            let word = if at as u64 == *index { *other } else { *word };
            image.extend_from_slice(&word.to_le_bytes())?;
        }
        let at = breaks_at(alloc, &image)?;
        assert_eq!(rt; words_of(alloc, place)?.first(), Some(&at), "of {line}");
    }
    Ok(())
}

/// Where the words break the format of an image: owned names rise in byte order, and a notice is of
/// the bus, goes to all and stands alone.
const IMAGES: &str = "\
none: 112 0 0 1 1 0 0 0 17 22 'a 19 22 'a.b
none: 112 0 0 1 1 0 0 0 19 22 'a.b 19 22 'a.c
none: 112 0 0 1 1 0 0 0 17 22 'B 17 22 'a
88: 112 0 0 1 1 0 0 0 19 22 'a.b 17 22 'a
88: 112 0 0 1 1 0 0 0 19 22 'a.c 19 22 'a.b
88: 112 0 0 1 1 0 0 0 19 22 'a.b 19 22 'a.b
none: 88 0 0 any 0 0 0 0 24 12 2
none: 80 0 0 1 0 0 0 7 16 17
64: 88 0 0 any 1 0 0 0 24 12 2
64: 88 0 0 1 0 0 0 0 24 12 2
88: 104 0 0 any 0 0 0 0 24 12 2 16 17
88: 88 0 0 any 0 0 0 0 24 12 2 0
0:
184: 176 0 any 9 1 2 3 4 19 10 'abc 24 23 5 32 19 3 176 32 19 8 184 'one
192: 176 0 any 9 1 2 3 4 19 10 'abc 24 23 5 32 19 3 176 32 19 8 184 'one 'eight 'left
";

#[test]
fn names_rise_and_a_notice_stands_alone(rt: HostRuntime) -> Result<(), Fail> {
    let alloc = rt.alloc();
    for line in IMAGES.lines() {
        let (place, words) = halves(line)?;
        let at = breaks_at(alloc, &bytes_of(alloc, words)?)?;
        assert_eq!(rt; words_of(alloc, place)?.first(), Some(&at), "of {line}");
    }
    let described = bytes_of(alloc, DESCRIBED)?;
    for (len, place) in [(191, 184), (184, 184), (100, 0), (7, 0), (0, 0)] {
        assert!(rt; len <= described.len());
        assert_eq!(rt;
            breaks_at(alloc, described.split_at(len).0)?,
            place,
            "of {len} bytes"
        );
    }
    Ok(())
}
