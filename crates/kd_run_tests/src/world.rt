//! Worlds: lists of events, callers in between one another, and what they are answered.

use kd_bloom::Param;
use kd_core::{Answer, Event, RunError, World, run_events};
use kd_pool::RecvMode;
use kd_types::{Blob, Cookie, HelloFlags, NameFlags, Seat, SendFlags, Text};
use kd_wire::{Command, Reply, WireItem, WireItems};
use std::alloc::{AllocError, Global};
use std::test::Fail;

const PLAIN: RecvMode = RecvMode {
    peek: false,
    drop_it: false,
    limit: None,
};

fn hello(flags: HelloFlags, items: Vec<WireItem>) -> Command {
    Command::Hello {
        flags,
        pool: 4096,
        send_mask: 0,
        receive_mask: 0,
        items: WireItems::of(items),
    }
}

/// A message of one item to this connection.
fn send(alloc: Global, dst: u64, item: WireItem) -> Result<Command, AllocError> {
    Ok(Command::Send {
        flags: SendFlags(0),
        priority: 0,
        dst,
        source: 0,
        payload_type: 0,
        cookie: 0,
        last: 0,
        items: WireItems::of(vec![in alloc; item]?),
    })
}

/// The command with which a caller takes the desk.
fn command(alloc: Global, verb: &str, word: &str) -> Result<Command, Fail> {
    match verb {
        "hello" => Ok(hello(HelloFlags(0), Vec::new(alloc))),
        "joins" => {
            let label = WireItem::Endpoint(Text::of(alloc, word.as_bytes())?);
            Ok(hello(HelloFlags(0), vec![in alloc; label]?))
        }
        "activates" => {
            let name = WireItem::Name(Text::of(alloc, word.as_bytes())?);
            Ok(hello(HelloFlags(2), vec![in alloc; name]?))
        }
        "keeps" => {
            let label = WireItem::Endpoint(Text::of(alloc, word.as_bytes())?);
            Ok(Command::EndpointMake {
                items: WireItems::of(vec![in alloc; label]?),
            })
        }
        "listens" => Ok(Command::MatchAdd {
            replace: false,
            cookie: Cookie(0),
            items: WireItems::of(Vec::new(alloc)),
        }),
        "shouts" => {
            let bits = Blob::of(vec![in alloc; 0; 64]?);
            let filter = WireItem::Filter {
                generation: 0,
                bits,
            };
            Ok(send(alloc, u64::MAX, filter)?)
        }
        "sends" => {
            let payload = WireItem::Payload(Blob::of(b"hi".to_vec(alloc)?));
            Ok(send(alloc, word.parse::<u64>()?, payload)?)
        }
        "calls" => {
            let name = WireItem::DstName(Text::of(alloc, word.as_bytes())?);
            Ok(send(alloc, 0, name)?)
        }
        "acquires" => Ok(Command::NameAcquire {
            flags: NameFlags(0),
            name: Text::of(alloc, word.as_bytes())?,
        }),
        "closes" => Ok(Command::Close),
        "byebye" => Ok(Command::Byebye),
        _ => Err("no such event")?,
    }
}

/// The event of a line: the caller, what it does, and a name, a seat or a number.
fn event(alloc: Global, line: &str) -> Result<Event, Fail> {
    let mut words = line.split_whitespace();
    let caller = words.next().unwrap_or("").parse::<u64>()?;
    let verb = words.next().unwrap_or("");
    let word = words.next().unwrap_or("0");
    let number = word.parse::<u8>().unwrap_or(0);
    let seat = Seat(number);
    let number = u32::from(number);
    match verb {
        "visits" => Ok(Event::Visit { caller, seat }),
        "leaves" => Ok(Event::Leave { caller }),
        "publishes" => Ok(Event::Publish {
            caller,
            seat,
            number: 0,
        }),
        "receives" => Ok(Event::Receive {
            caller,
            mode: PLAIN,
        }),
        "reads" => Ok(Event::Read {
            caller,
            number,
            sealed: false,
        }),
        "frees" => Ok(Event::Free { caller, number }),
        _ => Ok(Event::Take {
            caller,
            command: command(alloc, verb, word)?,
        }),
    }
}

/// What is looked at of an answer: of a message its slice and its length.
fn told(alloc: Global, answer: &Answer) -> Result<String, Fail> {
    match answer {
        Answer::Taken => Ok(String::from_str(alloc, "taken")?),
        Answer::Refused(why) | Answer::Left(Reply::Refused(why)) => {
            Ok(format!(in alloc; "{why:?}")?)
        }
        Answer::Visited(out) => Ok(format!(in alloc; "{out:?}")?),
        Answer::Left(_) => Ok(String::from_str(alloc, "left")?),
        Answer::Published => Ok(String::from_str(alloc, "published")?),
        Answer::Gone => Ok(String::from_str(alloc, "gone")?),
        Answer::Got(got) => Ok(format!(in alloc; "got {} of {}", got.number.0, got.length)?),
        Answer::Bytes(bytes) => Ok(format!(in alloc; "{} bytes", bytes.bytes().len())?),
        Answer::Freed => Ok(String::from_str(alloc, "freed")?),
    }
}

/// What a script's events are answered on a new world; or the place of the first that may not
/// happen.
fn answers(alloc: Global, script: &str) -> Result<Result<Vec<Answer>, u64>, Fail> {
    let mut events = Vec::new(alloc);
    for line in script.lines() {
        let (call, _) = line.split_once(" -> ").unwrap_or((line, ""));
        events.push(event(alloc, call)?)?;
    }
    let param = Param::of(64, 8).ok_or("64 bytes and 8 hashes are in range")?;
    let mut world = World::make(alloc, 1000, param)?;
    if events.len() > 1000 {
        return Err("a script is short")?;
    }
    match run_events(alloc, &mut world, events) {
        Ok(answers) => Ok(Ok(answers)),
        Err(RunError::Illegal { index, .. }) => Ok(Err(index as u64)),
        Err(_) => Err("out of memory")?,
    }
}

/// What the lines with an arrow are answered stands behind it.
const SCRIPTS: [&str; 7] = [
    // A message is received only when it is published.
    "\
1 hello
1 visits 0
1 leaves
2 hello
2 visits 1
2 leaves
1 sends 2 -> taken
1 visits 1 -> Slice(SliceNo(0))
1 leaves -> left
2 receives -> NoMessage { dropped: 0 }
1 publishes 1 -> published
2 receives -> got 0 of 104
2 reads 0 -> 104 bytes
2 frees 0 -> freed",
    // A message to somebody who left is gone.
    "\
1 hello
1 visits 0
1 leaves
2 hello
2 visits 1
2 leaves
1 sends 2
1 visits 1
1 leaves
2 closes -> taken
2 visits 1 -> Done
2 leaves -> left
1 publishes 1 -> gone
2 receives -> WrongState",
    // A seat is used again, and an id is not.
    "\
1 hello
1 visits 0
1 leaves
2 hello
2 visits 1
2 leaves
1 byebye
1 visits 0
1 leaves
3 hello
3 visits 0
3 leaves
2 sends 1 -> NoSuchConnection
2 sends 3 -> taken",
    // Nobody says byebye while a message waits.
    "\
1 hello
1 visits 0
1 leaves
1 sends 1
1 visits 0
1 leaves
1 publishes 0
1 byebye -> taken
1 visits 0 -> Refused(MessagesQueued)
1 leaves -> MessagesQueued
1 receives -> got 0 of 104
1 byebye -> taken
1 visits 0 -> Done
1 leaves -> left",
    // A message goes to the owner of a name.
    "\
1 hello
1 visits 0
1 leaves
2 hello
2 visits 1
2 leaves
2 acquires a.b -> taken
2 leaves -> left
1 calls a.b -> taken
1 visits 1 -> Slice(SliceNo(0))",
    // A name isn't taken from its activator while a message to it is on its way.
    "\
1 hello
1 visits 0
1 leaves
2 activates a.b
2 visits 1
2 leaves
3 hello
3 visits 2
3 leaves
1 calls a.b -> taken
1 visits 1 -> Slice(SliceNo(0))
1 leaves -> left
3 acquires a.b -> taken
3 visits 1 -> Refused(Busy { slice: 0 })
3 leaves -> Busy { slice: 0 }
1 publishes 1 -> published
3 acquires a.b -> taken
3 visits 1 -> Done
3 visits 2 -> Done
3 leaves -> left
2 receives -> NoMessage { dropped: 0 }
3 receives -> got 0 of 88
3 reads 0 -> 88 bytes",
    // A broadcast is received only when it is published, whoever was visited before.
    "\
1 hello
1 visits 0
1 leaves
2 hello
2 visits 1
2 leaves
3 hello
3 visits 2
3 leaves
2 listens
2 leaves
3 listens
3 leaves
1 shouts -> taken
1 visits 1 -> Slice(SliceNo(0))
3 receives -> NoMessage { dropped: 0 }
1 visits 2 -> Slice(SliceNo(0))
1 leaves -> left
3 receives -> NoMessage { dropped: 0 }
1 publishes 2 -> published
3 receives -> got 0 of 64
2 receives -> NoMessage { dropped: 0 }
1 publishes 1 -> published
2 receives -> got 0 of 64",
];

/// The first line that isn't answered as it stands there, with its answer.
fn first_difference(alloc: Global, script: &str) -> Result<Option<String>, Fail> {
    let answers = answers(alloc, script)?.map_err(|_| "each event may happen")?;
    if answers.len() != script.lines().count() {
        return Ok(Some(String::from_str(alloc, "the number of answers")?));
    }
    for (line, answer) in script.lines().zip(answers.iter()) {
        let answer = told(alloc, answer)?;
        let (_, wanted) = line.split_once(" -> ").unwrap_or(("", answer.as_str()));
        if answer.as_str() != wanted {
            return Ok(Some(format!(in alloc; "{line}, and not {answer}")?));
        }
    }
    Ok(None)
}

#[test]
fn callers_come_in_between_one_another(rt: HostRuntime) -> Result<(), Fail> {
    for script in SCRIPTS {
        let difference = first_difference(rt.alloc(), script)?;
        assert!(rt; difference.is_none(), "{difference:?}");
    }
    Ok(())
}

/// Scripts whose last event may not happen.
const ILLEGAL: [&str; 3] = [
    // Only the holder of the desk visits.
    "\
1 hello
2 visits 0",
    // Others receive, and wait for the desk, while somebody holds it.
    "\
1 hello
1 visits 0
1 leaves
2 hello
2 visits 1
2 leaves
1 sends 2
2 receives
1 visits 1
2 receives
2 byebye",
    // Nobody takes the desk in the middle of a broadcast.
    "\
1 hello
1 visits 0
1 leaves
2 hello
2 visits 1
2 leaves
3 hello
3 visits 2
3 leaves
2 listens
2 leaves
3 listens
3 leaves
1 shouts
1 visits 1
3 receives
3 closes",
];

#[test]
fn the_desk_has_one_holder(rt: HostRuntime) -> Result<(), Fail> {
    for script in ILLEGAL {
        let place = answers(rt.alloc(), script)?
            .err()
            .ok_or("the last event is illegal")?;
        assert_eq!(rt; place.saturating_add(1), script.lines().count() as u64);
    }
    Ok(())
}
