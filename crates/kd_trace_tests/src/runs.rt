//! Runs that are legal or aren't, with answers that are theirs or others.

use crate::table::{SELF, exchanged, verdict, with_line};
use std::test::Fail;

/// A line of the run, another in its place, and the verdict then.
const ANSWERS: &[(usize, &str, &str)] = &[
    (0, "take 1 56 1 1 0 4096 0 0 -> refused 10 0", "no 0 0\n"),
    (1, "visit 1 0 -> slice 0", "no 1 104\n"),
    (1, "visit 2 0 -> plain 5", "no 1 104\n"),
    (2, "leave 1 -> left 56 1 1 0 2 64 8", "no 2 160\n"),
    (
        2,
        "leave 1 -> left 56 1 2 0 1 64 8",
        "kdbusd: bad trace at byte 184",
    ),
    (4, "visit 1 0 -> visit_refused 16 0", "no 4 424\n"),
    (6, "publish 1 0 0 -> plain 3", "no 6 552\n"),
    (7, "receive 1 0 0 -> got 1 0 104 0", "no 7 616\n"),
    (7, "receive 1 3 0 -> got 0 0 104 0", "no 7 616\n"),
    (
        7,
        "receive 1 0 1 -> got 0 0 104 0",
        "kdbusd: bad trace at byte 616",
    ),
    (
        8,
        "read 1 0 0 -> bytes 96 0 0 1 1 0 0 0 32 19 2 96 'ha",
        "no 8 704\n",
    ),
    (9, "free 1 1 -> plain 4", "no 9 864\n"),
];

#[test]
fn the_first_answer_that_isnt_its_events_is_told(rt: HostRuntime) -> Result<(), Fail> {
    let alloc = rt.alloc();
    assert_eq!(rt; verdict(alloc, SELF)?.as_str(), "yes\n");
    for (index, line, wanted) in ANSWERS {
        let lines = with_line(alloc, SELF, *index, line)?;
        assert_eq!(rt; verdict(alloc, &lines)?.as_str(), *wanted);
    }
    Ok(())
}

/// A message that its receiver asks for before it is published, and again behind that.
const LATE: &str = "\
take 1 56 1 1 0 4096 0 0 -> plain 1
visit 1 0 -> plain 5
leave 1 -> left 56 1 1 0 1 64 8
take 2 56 1 2 0 4096 0 0 -> plain 1
visit 2 1 -> plain 5
leave 2 -> left 56 1 2 0 2 64 8
take 1 120 2 1 0 88 0 0 2 0 0 0 0 18 1 'hi -> plain 1
visit 1 1 -> slice 0
leave 1 -> left 32 2 1 0
receive 2 0 0 -> refused 18 0
publish 1 1 0 -> plain 2
receive 2 0 0 -> got 0 0 104 0
";

#[test]
fn a_message_is_received_only_behind_its_publishing(rt: HostRuntime) -> Result<(), Fail> {
    let alloc = rt.alloc();
    assert_eq!(rt; verdict(alloc, LATE)?.as_str(), "yes\n");
    let early = with_line(alloc, LATE, 9, "receive 2 0 0 -> got 0 0 104 0")?;
    assert_eq!(rt; verdict(alloc, &early)?.as_str(), "no 9 808\n");
    Ok(())
}

/// Three senders that publish late and in another order than they sent: the second before the
/// first, and the third behind the end of its receiver, an activator whose name was asked for
/// while the message was being written.
const LATE_IN_ANOTHER_ORDER: &str = "\
take 1 56 1 1 0 4096 0 0 -> plain 1
visit 1 0 -> plain 5
leave 1 -> left 56 1 1 0 1 64 8
take 2 56 1 2 0 4096 0 0 -> plain 1
visit 2 1 -> plain 5
leave 2 -> left 56 1 2 0 2 64 8
take 3 56 1 3 0 4096 0 0 -> plain 1
visit 3 2 -> plain 5
leave 3 -> left 56 1 3 0 3 64 8
take 4 80 1 4 2 4096 0 0 19 6 'a.b -> plain 1
visit 4 3 -> plain 5
leave 4 -> left 56 1 4 0 4 64 8
take 1 120 2 1 0 88 0 0 3 0 0 7 0 18 1 'hi -> plain 1
visit 1 2 -> slice 0
leave 1 -> left 32 2 1 0
take 2 120 2 2 0 88 0 0 3 0 0 8 0 18 1 'ho -> plain 1
visit 2 2 -> slice 1
leave 2 -> left 32 2 2 0
take 3 144 2 3 0 112 0 0 0 0 0 0 0 19 3 'a.b 18 1 'hi -> plain 1
visit 3 3 -> slice 0
leave 3 -> left 32 2 3 0
publish 2 2 1 -> plain 2
receive 3 0 0 -> got 1 104 104 0
take 1 56 8 1 0 19 6 'a.b -> plain 1
visit 1 3 -> visit_refused 22 0
leave 1 -> left 40 8 1 22 0
take 4 32 7 4 0 -> plain 1
visit 4 3 -> plain 5
leave 4 -> left 32 7 4 0
publish 3 3 0 -> plain 3
publish 1 2 0 -> plain 2
receive 3 0 0 -> got 0 0 104 0
free 3 1 -> plain 4
";

/// The first of two of its pairs that change places, and the verdict then.
const EXCHANGED: &[(usize, &str)] = &[
    (0, "no 0 0\n"),
    (13, "no 13 1216\n"),
    (15, "no 15 1344\n"),
    (21, "no 21 1960\n"),
    (24, "no 24 2216\n"),
    (30, "no 30 2632\n"),
    (20, "yes\n"),
    (28, "yes\n"),
    (29, "yes\n"),
    (31, "yes\n"),
];

#[test]
fn callers_may_publish_late_and_in_another_order(rt: HostRuntime) -> Result<(), Fail> {
    let alloc = rt.alloc();
    assert_eq!(rt; verdict(alloc, LATE_IN_ANOTHER_ORDER)?.as_str(), "yes\n");
    for (index, wanted) in EXCHANGED {
        let lines = exchanged(alloc, LATE_IN_ANOTHER_ORDER, *index)?;
        assert_eq!(rt; verdict(alloc, &lines)?.as_str(), *wanted);
    }
    Ok(())
}
