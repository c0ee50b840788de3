//! Commands that are sent ahead of their replies.

use crate::table::bytes_of;
use crate::talk::{ROOM, failing_link, link_of, send_ahead};
use kd_client::ClientError;
use kd_wire::Reply;
use std::test::Fail;

/// Three messages to the connection 2, the second of which is refused.
const FRAMES: &str = "\
120 2 0 0 88 0 0 2 0 0 0 0 18 1 'hi
120 2 0 0 88 0 0 3 0 0 0 0 18 1 'hi
120 2 0 0 88 0 0 2 0 0 0 0 18 1 'ho
";

const REPLIES: &str = "\
32 2 0 0
40 2 0 31 0
32 2 0 0
";

#[test]
fn all_frames_go_out_before_a_reply_is_read(rt: HostRuntime) -> Result<(), Fail> {
    let alloc = rt.alloc();
    let replies = bytes_of(alloc, REPLIES)?;
    let frames = bytes_of(alloc, FRAMES)?;
    let sent = send_ahead(alloc, link_of(alloc, &replies, &[])?, FRAMES)?;
    assert_eq!(rt; sent.error, None);
    assert_eq!(rt; sent.replies.len(), 3);
    let refused = sent
        .replies
        .iter()
        .position(|reply| matches!(reply, Reply::Refused(_)));
    assert_eq!(rt; refused, Some(1));
    assert_eq!(rt; sent.link.held(), frames.as_slice());
    // One write takes them all, so that only the first write can fail.
    let link = failing_link(alloc, &replies, 0, 2, ROOM)?;
    assert_eq!(rt; send_ahead(alloc, link, FRAMES)?.error, None);
    Ok(())
}

#[test]
fn replies_to_them_may_end_at_each_byte(rt: HostRuntime) -> Result<(), Fail> {
    let alloc = rt.alloc();
    let replies = bytes_of(alloc, REPLIES)?;
    let frames = bytes_of(alloc, FRAMES)?;
    for end in 0..replies.len() {
        let link = link_of(alloc, replies.split_at(end).0, &[])?;
        let sent = send_ahead(alloc, link, FRAMES)?;
        let at = end as u64;
        assert_eq!(rt; sent.error, Some(ClientError::Ended { at }));
        assert_eq!(rt; sent.link.held(), frames.as_slice(), "ended at {end}");
    }
    Ok(())
}

#[test]
fn each_read_of_them_and_their_write_may_fail(rt: HostRuntime) -> Result<(), Fail> {
    let alloc = rt.alloc();
    let replies = bytes_of(alloc, REPLIES)?;
    let frames = bytes_of(alloc, FRAMES)?;
    // A reply takes two reads, of its size word and of the rest.
    for (read, write) in (1..7)
        .map(|read| (read, 0))
        .chain((1..2).map(|write| (0, write)))
    {
        let link = failing_link(alloc, &replies, read, write, ROOM)?;
        let sent = send_ahead(alloc, link, FRAMES)?;
        assert_eq!(rt; sent.error, Some(ClientError::LinkFault), "{read} {write}");
        assert!(rt; frames.starts_with(sent.link.held()), "{read} {write}");
    }
    Ok(())
}
