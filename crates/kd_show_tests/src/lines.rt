//! Lines that have no frame, and lines that say nothing.

use crate::runs::made;
use kd_lines::End;
use std::test::Fail;

/// Lines that have no frame.
const NONE: &str = r#"c1
RECV
1 RECV
c RECV
cx RECV
c18446744073709551616 RECV
c1 NOPE
c1 recv
c1 "RECV"
c1 RECV RECV
c1 RECV +NOPE
c1 RECV PEEK
c1 RECV slice=0
c1 RECV limit
c1 RECV limit=
c1 RECV limit=x
c1 RECV limit=9223372036854775808x
c1 RECV "hi"
c1 READ slice=0 PAYLOAD "hi"
c1 HELLO size=4294967296
c1 HELLO size=255
c1 HELLO +ACTIVATOR +HOLDER size=4096 NAME "a.b"
c1 HELLO +ACTIVATOR size=4096
c1 SEND
c1 SEND to=any
c1 SEND to=1 PAYLOAD
c1 SEND to=1 PAYLOAD "hi
c1 SEND to=1 PAYLOAD hi
c1 SEND to=1 PAYLOAD "hi" "hi"
c1 SEND to=1 PAYLOAD "\"
c1 SEND to=1 PAYLOAD "\x0"
c1 SEND to=1 PAYLOAD "\xAB"
c1 SEND to=1 PAYLOAD "\n"
c1 SEND to=1 DST_NAME "a.b" DST_NAME "a.b"
c1 SEND to=1 OFF "hi"
c1 NAME_ACQUIRE
c1 NAME_ACQUIRE NAME "a.b" NAME "a.b"
c1 NAME_ACQUIRE PAYLOAD "a.b"
c1 POLICY_SET NAME "a.b"
c1 POLICY_SET NAME "a.b" ACCESS world=0
c1 POLICY_SET NAME "a.b" ACCESS own
c1 POLICY_SET NAME "a.b" ACCESS user=1 sing
c1 POLICY_SET ACCESS user=1 own NAME "a.b"
c1 ENTER uid=4294967296 gid=0
c1 RECV refused BadFlags
c1 RECV refused BadFlags FRAME
c1 RECV refused BadFlags FRAME "hi"
"#;

/// Lines that say nothing, or stand as `c1 BYEBYE` does.
const SPACED: &str = "\n   \t\r\n# c1 RECV\n\t # \"\nc1 BYEBYE\r\n  c1\tBYEBYE  \nc1 BYEBYE";

#[test]
fn a_line_without_a_frame_is_told_by_its_place(rt: HostRuntime) -> Result<(), Fail> {
    let alloc = rt.alloc();
    for line in NONE.lines() {
        let lines = format!(in alloc; "c1 BYEBYE\n\n{line}\nc1 RECV\n")?;
        let frames = made(alloc, lines.as_bytes())?;
        assert_eq!(rt; frames.end, End::BadLine { at: 11 }, "of {line}");
        assert_eq!(rt; frames.written.len(), 32, "of {line}");
    }
    Ok(())
}

#[test]
fn blanks_and_remarks_make_nothing(rt: HostRuntime) -> Result<(), Fail> {
    let frames = made(rt.alloc(), SPACED.as_bytes())?;
    assert_eq!(rt; frames.end, End::Done);
    assert_eq!(rt; frames.written.len(), 96);
    for frame in frames.written.chunks(32) {
        assert!(rt; frame.starts_with(&[32, 0, 0, 0, 0, 0, 0, 0, 6, 0, 0, 0, 0, 0, 0, 0, 1]));
    }
    Ok(())
}
