//! The small values: ids, texts, flag words, refusals.

use kd_types::{
    Blob, ConnId, HelloFlags, ListFlags, NameFlags, RecvFlags, Refusal, SendFlags, Text,
};
use std::test::Fail;

#[test]
fn texts_and_blobs_keep_their_bytes(rt: HostRuntime) -> Result<(), Fail> {
    let text = Text::of(rt.alloc(), b"a.b")?;
    assert_eq!(rt; text.bytes(), b"a.b".as_slice());
    assert!(rt; text == Text::of(rt.alloc(), b"a.b")?);
    assert!(rt; text != Text::of(rt.alloc(), b"a.c")?);
    assert!(rt; Blob::empty(rt.alloc()).bytes().is_empty());
    Ok(())
}

#[test]
fn refusals_have_numbers_and_flag_words_no_unknown_bits(rt: HostRuntime) {
    let moved = Refusal::NameMoved { owner: ConnId(7) };
    assert_eq!(rt; (moved.number(), moved.value()), (10, 7));
    assert_eq!(rt; Refusal::TurnsSpent.number(), 37);
    assert_eq!(rt; Refusal::TooMany { limit: 64 }.value(), 64);
    assert!(rt; HelloFlags::of(1).is_none() && HelloFlags::of(16).is_none());
    assert_eq!(rt; HelloFlags::of(14).map(HelloFlags::word), Some(14));
    assert!(rt; SendFlags::of(8).is_none() && RecvFlags::of(8).is_none());
    assert!(rt; NameFlags::of(8).is_none() && ListFlags::of(16).is_none());
    assert!(rt; SendFlags::EXPECT_REPLY.expects_reply() && !NameFlags::QUEUE.allows());
}
