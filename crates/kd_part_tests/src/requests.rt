//! Pending requests: cookies, limits, and the orders of what is due and of what is dead.

ghost use Rattle.std.specs.Prelude.{◌≤◌, length};

use kd_replies::{Replies, Request};
use kd_types::{ConnId, Cookie, Moment, Refusal};
use std::test::Fail;

fn request(asker: u64, replier: u64, cookie: u64, deadline: u64) -> Request {
    Request {
        asker: ConnId(asker),
        replier: ConnId(replier),
        cookie: Cookie(cookie),
        deadline: Moment(deadline),
    }
}

#[test]
fn a_cookie_is_waited_for_once(rt: HostRuntime) -> Result<(), Fail> {
    let mut replies = Replies::make(rt.alloc())?;
    assert_eq!(rt; replies.expect(request(1, 2, 7, 10)), Ok(()));
    assert_eq!(rt;
        replies.may_expect(ConnId(1), Cookie(7)),
        Err(Refusal::BadCookie)
    );
    assert_eq!(rt; replies.may_expect(ConnId(2), Cookie(7)), Ok(()));
    assert!(rt; replies.has(ConnId(1), ConnId(2), Cookie(7)));
    assert!(rt; !replies.has(ConnId(1), ConnId(3), Cookie(7)));
    replies.rename(ConnId(2), ConnId(3));
    assert!(rt; replies.has(ConnId(1), ConnId(3), Cookie(7)));
    replies.answer(ConnId(1), Cookie(7));
    assert!(rt; !replies.has(ConnId(1), ConnId(3), Cookie(7)));
    assert_eq!(rt; replies.may_expect(ConnId(1), Cookie(7)), Ok(()));
    Ok(())
}

#[test]
fn zeros_are_judged_where_a_message_is_sent(rt: HostRuntime) -> Result<(), Fail> {
    let mut replies = Replies::make(rt.alloc())?;
    assert_eq!(rt; replies.expect(request(1, 2, 0, 0)), Ok(()));
    assert_eq!(rt; replies.due(rt.alloc(), Moment(0))?.len(), 1);
    Ok(())
}

#[test]
fn an_asker_waits_for_128_replies(rt: HostRuntime) -> Result<(), Fail> {
    let mut replies = Replies::make(rt.alloc())?;
    'asking: for i in 0..128 {
        replies.expect(request(1, 2, i + 1, 10))?;
    }
    assert_eq!(rt;
        replies.may_expect(ConnId(1), Cookie(129)),
        Err(Refusal::TooMany { limit: 128 })
    );
    assert_eq!(rt;
        replies.may_expect(ConnId(1), Cookie(128)),
        Err(Refusal::BadCookie)
    );
    assert_eq!(rt; replies.may_expect(ConnId(2), Cookie(129)), Ok(()));
    Ok(())
}

#[test]
fn due_by_deadline_and_dead_by_asker(rt: HostRuntime) -> Result<(), Fail> {
    let mut replies = Replies::make(rt.alloc())?;
    let asked = [
        request(4, 1, 7, 55),
        request(1, 5, 9, 10),
        request(1, 2, 7, 10),
        request(3, 2, 8, 10),
        request(1, 2, 3, 90),
    ];
    'asking: for one in &asked {
        replies.expect(*one)?;
    }
    let due = replies.due(rt.alloc(), Moment(55))?;
    let order = [asked[2], asked[1], asked[3], asked[0]];
    assert_eq!(rt; due.as_slice(), order.as_slice());
    assert!(rt; replies.due(rt.alloc(), Moment(9))?.is_empty());
    let dead = replies.dead_without(rt.alloc(), &[ConnId(2), ConnId(3)])?;
    let order = [asked[4], asked[2]];
    assert_eq!(rt; dead.as_slice(), order.as_slice());
    replies.expire(Moment(10));
    assert!(rt; !replies.has(ConnId(3), ConnId(2), Cookie(8)));
    assert!(rt; replies.has(ConnId(4), ConnId(1), Cookie(7)));
    replies.drop_conn(ConnId(1));
    assert!(rt; !replies.has(ConnId(4), ConnId(1), Cookie(7)));
    assert!(rt; replies.due(rt.alloc(), Moment(100))?.is_empty());
    Ok(())
}
