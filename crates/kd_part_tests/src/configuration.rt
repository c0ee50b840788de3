//! The configuration of a service.

use kd_creds::{ListenError, ListenLine, read_listen};
use kd_types::{Creds, Text};
use std::alloc::Global;
use std::test::Fail;

/// How many lines of a text say something, or where it is malformed.
fn count(alloc: Global, text: &[u8]) -> Result<Result<usize, usize>, Fail> {
    match read_listen(alloc, text) {
        Ok(lines) => Ok(Ok(lines.len())),
        Err(ListenError::Malformed { at }) => Ok(Err(at)),
        Err(ListenError::OutOfMemory) => Err("out of memory")?,
    }
}

#[test]
fn a_bus_and_a_socket_are_read(rt: HostRuntime) -> Result<(), Fail> {
    let alloc = rt.alloc();
    let text = b"bus 0-system 0 64 8\nsocket /run/a 1000 1001 privileged 3\n";
    let lines = read_listen(alloc, text)?;
    let bus = ListenLine::Bus {
        name: Text::of(alloc, b"0-system")?,
        uid: 0,
        size: 64,
        hashes: 8,
    };
    let creds = Creds {
        uid: 1000,
        gid: 1001,
        privileged: true,
    };
    let path = Text::of(alloc, b"/run/a")?;
    let socket = ListenLine::Socket {
        path,
        creds,
        sessions: 3,
    };
    assert!(rt; lines.as_slice() == [bus, socket].as_slice());
    Ok(())
}

/// Texts whose lines end in `;`: how many say something (`+`), or the place of the line that breaks
/// a rule (`-`).
const TEXTS: &str = "\
+1: socket /run/a 1000 1000 plain 1;
+1: socket /run/a 1000 1000 plain 1
+1: # who may come;;socket a 1 1 plain 1;#
-0:
-10: # nothing;
-20: bus 0-system 0 64 8;
-19: bus 0-system 0 64 8
-0: socket /run/a 1000 1000 plain
-0: socket /run/a 1000 1000 plain 1 1
-0: socket /run/a 1000 1000 plain 0
-0: socket /run/a 1000 1000 Plain 1
-15: bus 0-a 0 64 8;socket  a 1 1 plain 1;
-15: bus 0-a 0 64 8;socket a 1 1 plain 1 ;
-1: ; socket a 1 1 plain 1;
-22: socket a 1 1 plain 1;;listen a;
+1: socket a 0000000001 1 plain 1
-0: socket a 00000000001 1 plain 1
+1: socket a 4294967295 1 plain 1
-0: socket a 4294967296 1 plain 1
-0: socket a 1 +1 plain 1
-0: socket a 1 1a plain 1
+1: socket \u{e9} 1 1 plain 1
+2: bus 7-a 0007 64 8;socket a 1 1 plain 1
-0: bus 7-a 8 64 8;socket a 1 1 plain 1
-0: bus 07-a 7 64 8;socket a 1 1 plain 1
-0: bus 7- 7 64 8;socket a 1 1 plain 1
-0: bus 7-a 7 60 8;socket a 1 1 plain 1
-0: bus 7-a 7 64 9;socket a 1 1 plain 1
-14: bus 7-a 7 8 1;bus 7-a 7 64 8;socket a 1 1 plain 1
+5: bus 1-a 1 64 8;bus 1-b 1 64 8;bus 1-c 1 64 8;bus 1-d 1 64 8;socket a 1 1 plain 1
-60: bus 1-a 1 64 8;bus 1-b 1 64 8;bus 1-c 1 64 8;bus 1-d 1 64 8;bus 1-e 1 64 8;socket a 1 1 plain 1
";

/// The text with an end of line for each `;`.
fn with_lines(alloc: Global, text: &str) -> Result<Vec<u8>, Fail> {
    let mut bytes = Vec::new(alloc);
    for byte in text.bytes() {
        bytes.push(if byte == b';' { b'\n' } else { byte })?;
    }
    Ok(bytes)
}

#[test]
fn a_line_that_breaks_a_rule_is_told_by_its_start(rt: HostRuntime) -> Result<(), Fail> {
    for line in TEXTS.lines() {
        let (wanted, text) = line.split_once(':').ok_or("a line without a colon")?;
        let text = with_lines(rt.alloc(), text.strip_prefix(' ').unwrap_or(text))?;
        let told = match count(rt.alloc(), &text)? {
            Ok(lines) => format!(in rt.alloc(); "+{lines}")?,
            Err(at) => format!(in rt.alloc(); "-{at}")?,
        };
        assert!(rt; told.as_str() == wanted, "{told} of {line}");
    }
    assert_eq!(rt; count(rt.alloc(), b"socket \xc3 1 1 plain 1")?, Err(0));
    Ok(())
}

#[test]
fn a_path_has_100_bytes_and_a_service_64_sockets(rt: HostRuntime) -> Result<(), Fail> {
    let alloc = rt.alloc();
    for (length, answer) in [(99, Ok(1)), (100, Ok(1)), (101, Err(0))] {
        let mut text = b"socket ".to_vec(alloc)?;
        text.extend_from_slice(&vec![in alloc; b'p'; length]?)?;
        text.extend_from_slice(b" 1 1 plain 1")?;
        assert_eq!(rt; count(alloc, &text)?, answer);
    }
    for (lines, answer) in [(64, Ok(64)), (65, Err(1344))] {
        let mut text = Vec::new(alloc);
        for _ in 0..lines {
            text.extend_from_slice(b"socket a 1 1 plain 1\n")?;
        }
        assert_eq!(rt; count(alloc, &text)?, answer);
    }
    Ok(())
}
