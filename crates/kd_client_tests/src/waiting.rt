//! Requests, their answers, and what else a client finds.

use crate::table::bytes_of;
use crate::talk::{ROOM, failing_link, link_of, replies_of, speak};
use kd_client::ClientError;
use std::test::Fail;

/// A connection is asked, and its answer comes twice.
const ANSWERED: &str = "\
reply: 32 2 0 0
image: 96 0 0 1 2 0 0 1 32 19 2 96 'hi
image: 96 0 0 1 2 0 0 1 32 19 2 96 'hi
";

const CALLS: &str = "\
request 2 > placed 1
next > answer 1
next > message 1
";

/// The frames of these calls: a SEND, then twice a RECV, a READ and a FREE.
const FRAMES: &str = "\
120 2 0 0 88 1 0 2 0 0 1 1000 18 1 'hi
40 3 0 0 0 40 4 0 0 7 40 5 0 0 7
40 3 0 0 0 40 4 0 0 7 40 5 0 0 7
";

#[test]
fn a_request_is_answered_once(rt: HostRuntime) -> Result<(), Fail> {
    let alloc = rt.alloc();
    let replies = replies_of(alloc, ANSWERED)?;
    let spoken = speak(alloc, link_of(alloc, &replies, &[])?, CALLS)?;
    assert_eq!(rt; spoken.other, None);
    assert_eq!(rt; spoken.error, None);
    assert_eq!(rt; spoken.link.held(), bytes_of(alloc, FRAMES)?.as_slice());
    Ok(())
}

/// Conversations, and behind each the calls with what came of them.
const TALKS: &[(&str, &str)] = &[
    // Two requests are answered in the other order.
    (
        "reply: 32 2 0 0
reply: 32 2 0 0
image: 64 0 0 1 3 0 0 2
image: 64 0 0 1 2 0 0 1",
        "request 2 > placed 1
request 3 > placed 2
next > answer 2
next > answer 1",
    ),
    // Another connection answers, then one that asks itself, then one that tells all.
    (
        "reply: 32 2 0 0
image: 64 0 0 1 3 0 0 1
image: 64 1 0 1 2 0 0 1
image: 64 0 0 any 2 0 0 1
image: 64 0 0 1 2 0 0 2
image: 64 0 0 1 2 0 0 1",
        "request 2 > placed 1
next > message 1
next > message 1
next > message 1
next > message 2
next > answer 1",
    ),
    // A request whose deadline passes, and one whose connection goes; each fails once.
    (
        "reply: 32 2 0 0
reply: 32 2 0 0
image: 80 0 0 1 0 0 0 2 16 17
image: 80 0 0 1 0 0 0 2 16 17
image: 80 0 0 1 0 0 0 1 16 18
image: 64 0 0 1 2 0 0 1",
        "request 2 > placed 1
request 3 > placed 2
next > late 2
next > message 2
next > dead 1
next > message 1",
    ),
    // A refused request has a cookie of its own, and no answer.
    (
        "reply: 40 2 0 9 0
reply: 32 2 0 0
image: 64 0 0 1 2 0 0 1
image: 64 0 0 1 2 0 0 2",
        "request 2 > refused 0
request 2 > placed 2
next > message 1
next > answer 2",
    ),
    // Refusals of each command; what was read and not given back counts as not read.
    (
        "reply: 32 2 0 0
reply: 40 3 0 18 5
reply: 40 3 0 31 0
reply: 64 3 0 0 7 0 64 0 40 4 0 20 0
reply: 64 3 0 0 7 0 64 0 104 4 0 0 64 64 0 0 1 2 0 0 1 40 5 0 18 3
image: 64 0 0 1 2 0 0 1",
        "request 2 > placed 1
next > nothing 5
next > refused 0
next > refused 0
next > refused 3
next > answer 1",
    ),
    // A name that gets an owner, changes it and loses it, and a connection that comes.
    (
        "image: 104 0 0 any 0 0 0 0 35 14 0 4 'a.b
image: 104 0 0 any 0 0 0 0 35 16 4 6 'a.b
image: 104 0 0 any 0 0 0 0 35 15 6 0 'a.b
image: 88 0 0 any 0 0 0 0 24 12 9",
        "next > changed 4
next > changed 6
next > changed 0
next > message 0",
    ),
];

#[test]
fn each_image_is_what_those_that_wait_take_it_for(rt: HostRuntime) -> Result<(), Fail> {
    let alloc = rt.alloc();
    for (replies, calls) in TALKS {
        let replies = replies_of(alloc, replies)?;
        let spoken = speak(alloc, link_of(alloc, &replies, &[])?, calls)?;
        assert_eq!(rt; spoken.other, None, "{calls}");
        assert_eq!(rt; spoken.error, None, "{calls}");
    }
    Ok(())
}

#[test]
fn a_talk_may_end_at_each_of_its_bytes(rt: HostRuntime) -> Result<(), Fail> {
    let alloc = rt.alloc();
    let replies = replies_of(alloc, ANSWERED)?;
    let frames = bytes_of(alloc, FRAMES)?;
    for end in 0..replies.len() {
        let link = link_of(alloc, replies.split_at(end).0, &[])?;
        let spoken = speak(alloc, link, CALLS)?;
        let at = end as u64;
        assert_eq!(rt; spoken.error, Some(ClientError::Ended { at }));
        assert_eq!(rt; spoken.other, None, "ended at {end}");
        assert!(rt; frames.starts_with(spoken.link.held()), "ended at {end}");
    }
    Ok(())
}

#[test]
fn each_read_and_each_write_of_a_talk_may_fail(rt: HostRuntime) -> Result<(), Fail> {
    let alloc = rt.alloc();
    let replies = replies_of(alloc, ANSWERED)?;
    let frames = bytes_of(alloc, FRAMES)?;
    // Seven commands: each is one write, and its reply two reads.
    for (read, write) in (1..15)
        .map(|read| (read, 0))
        .chain((1..8).map(|write| (0, write)))
    {
        let spoken = speak(
            alloc,
            failing_link(alloc, &replies, read, write, ROOM)?,
            CALLS,
        )?;
        assert_eq!(rt;
            spoken.error,
            Some(ClientError::LinkFault),
            "{read} {write}"
        );
        assert_eq!(rt; spoken.other, None, "{read} {write}");
        assert!(rt; frames.starts_with(spoken.link.held()), "{read} {write}");
    }
    Ok(())
}

/// Where looking for a message ends the client, and what it reads.
const BROKEN: &[(u64, &str)] = &[
    // The slice holds no image, or none that is whole.
    (64, "image: 64 8 0 1 2 0 0 1"),
    (64, "image: 72 0 0 1 2 0 0 1"),
    (64, "image: 64 0 0 1 2 0 0 1 5"),
    (64, "reply: 64 3 0 0 7 0 0 0 40 4 0 0 0"),
    // Another command is answered.
    (0, "reply: 32 4 0 0"),
    (64, "reply: 64 3 0 0 7 0 64 0 32 5 0 0"),
    (
        168,
        "reply: 64 3 0 0 7 0 64 0 104 4 0 0 64 64 0 0 1 2 0 0 1 32 4 0 0",
    ),
];

#[test]
fn what_is_no_message_tells_its_place(rt: HostRuntime) -> Result<(), Fail> {
    let alloc = rt.alloc();
    for (at, replies) in BROKEN {
        let link = link_of(alloc, &replies_of(alloc, replies)?, &[])?;
        let spoken = speak(alloc, link, "next > answer 1")?;
        assert_eq!(rt;
            spoken.error,
            Some(ClientError::BadReply { at: *at }),
            "{replies}"
        );
    }
    Ok(())
}
