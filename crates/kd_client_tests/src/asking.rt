//! Commands that are asked one by one, and how a client ends.

use crate::table::{bytes_of, numbered};
use crate::talk::{ROOM, ask_each, failing_link, link_of};
use kd_client::ClientError;
use std::test::Fail;

/// A connection sends itself `hi`, receives it, reads it and frees it.
const FRAMES: &str = "\
56 1 0 0 4096 0 0
120 2 0 0 88 0 0 1 0 0 0 0 18 1 'hi
40 3 0 0 0
40 4 0 0 0
40 5 0 0 0
";

const REPLIES: &str = "\
56 1 0 0 1 64 8
32 2 0 0
64 3 0 0 0 0 104 0
144 4 0 0 104 96 0 0 1 1 0 0 0 32 19 2 96 'hi
32 5 0 0
";

#[test]
fn each_command_is_answered_by_its_reply(rt: HostRuntime) -> Result<(), Fail> {
    let alloc = rt.alloc();
    let replies = bytes_of(alloc, REPLIES)?;
    let heard = ask_each(alloc, link_of(alloc, &replies, &[])?, FRAMES)?;
    assert_eq!(rt; heard.error, None);
    assert_eq!(rt; heard.replies, replies);
    assert_eq!(rt; heard.link.held(), bytes_of(alloc, FRAMES)?.as_slice());
    Ok(())
}

#[test]
fn replies_may_come_in_any_two_pieces(rt: HostRuntime) -> Result<(), Fail> {
    let alloc = rt.alloc();
    let replies = bytes_of(alloc, REPLIES)?;
    for place in 0..replies.len() {
        let heard = ask_each(alloc, link_of(alloc, &replies, &[place])?, FRAMES)?;
        assert_eq!(rt; heard.error, None, "cut at {place}");
        assert_eq!(rt; heard.replies, replies, "cut at {place}");
    }
    Ok(())
}

#[test]
fn a_link_that_ends_tells_its_place(rt: HostRuntime) -> Result<(), Fail> {
    let alloc = rt.alloc();
    let replies = bytes_of(alloc, REPLIES)?;
    let frames = bytes_of(alloc, FRAMES)?;
    for end in 0..replies.len() {
        let heard = ask_each(alloc, link_of(alloc, replies.split_at(end).0, &[])?, FRAMES)?;
        let at = end as u64;
        assert_eq!(rt; heard.error, Some(ClientError::Ended { at }));
        assert!(rt; replies.starts_with(&heard.replies), "ended at {end}");
        assert!(rt; heard.replies.len() <= end, "ended at {end}");
        assert!(rt; frames.starts_with(heard.link.held()), "ended at {end}");
    }
    Ok(())
}

#[test]
fn each_read_and_each_write_may_fail(rt: HostRuntime) -> Result<(), Fail> {
    let alloc = rt.alloc();
    let replies = bytes_of(alloc, REPLIES)?;
    let frames = bytes_of(alloc, FRAMES)?;
    // A reply takes two reads, of its size word and of the rest; a frame takes one write.
    for (read, write) in (1..11)
        .map(|read| (read, 0))
        .chain((1..6).map(|write| (0, write)))
    {
        let link = failing_link(alloc, &replies, read, write, ROOM)?;
        let heard = ask_each(alloc, link, FRAMES)?;
        assert_eq!(rt; heard.error, Some(ClientError::LinkFault), "{read} {write}");
        assert!(rt; replies.starts_with(&heard.replies), "{read} {write}");
        assert!(rt; frames.starts_with(heard.link.held()), "{read} {write}");
    }
    let link = failing_link(alloc, &replies, 11, 6, ROOM)?;
    assert_eq!(rt; ask_each(alloc, link, FRAMES)?.error, None);
    Ok(())
}

#[test]
fn a_front_of_a_frame_is_written_where_no_more_fits(rt: HostRuntime) -> Result<(), Fail> {
    let alloc = rt.alloc();
    let replies = bytes_of(alloc, REPLIES)?;
    let frames = bytes_of(alloc, FRAMES)?;
    for room in 0..frames.len() {
        let link = failing_link(alloc, &replies, 0, 0, room)?;
        let heard = ask_each(alloc, link, FRAMES)?;
        assert_eq!(rt; heard.error, Some(ClientError::LinkFault), "{room}");
        assert_eq!(rt; heard.link.held(), frames.split_at(room).0, "{room}");
    }
    Ok(())
}

/// Where a HELLO and a SEND find no reply to them, and what they find.
const WRONG: &str = "\
0: 64 3 0 0 0 0 104 0
0: 32 2 0 0
0: 56 1 1 0 1 64 8
0: 56 1 0 1 1 64 8
0: 56 1 0 38 1 64 8
0: 56 99 0 0 1 64 8
0: 40 1 0 0 1
0: 64 1 0 0 1 64 8 0
0: 0 1 0 0 1 64 8
0: 31 1 0 0 1 64 8
0: 2097153 1 0 0 1 64 8
0: 2097160
0: any
56: 56 1 0 0 1 64 8 56 1 0 0 1 64 8
56: 56 1 0 0 1 64 8 31 2 0 0
56: 56 1 0 0 1 64 8 2097153
";

#[test]
fn what_is_no_reply_to_the_command_tells_its_place(rt: HostRuntime) -> Result<(), Fail> {
    let alloc = rt.alloc();
    for line in WRONG.lines() {
        let (at, words) = numbered(line)?;
        let link = link_of(alloc, &bytes_of(alloc, words)?, &[])?;
        let heard = ask_each(alloc, link, FRAMES)?;
        assert_eq!(rt; heard.error, Some(ClientError::BadReply { at }), "{line}");
        assert_eq!(rt; heard.replies.len() as u64, at, "{line}");
    }
    let link = link_of(alloc, &bytes_of(alloc, "2097152")?, &[])?;
    let heard = ask_each(alloc, link, FRAMES)?;
    assert_eq!(rt; heard.error, Some(ClientError::Ended { at: 8 }));
    Ok(())
}

#[test]
fn a_refusal_is_an_answer(rt: HostRuntime) -> Result<(), Fail> {
    let alloc = rt.alloc();
    let replies = bytes_of(
        alloc,
        "40 1 0 7 0 40 2 0 31 0 40 3 0 18 5 40 4 0 20 0 40 5 0 21 0",
    )?;
    let heard = ask_each(alloc, link_of(alloc, &replies, &[])?, FRAMES)?;
    assert_eq!(rt; heard.error, None);
    assert_eq!(rt; heard.replies, replies);
    Ok(())
}
