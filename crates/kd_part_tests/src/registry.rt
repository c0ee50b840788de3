//! The registry of names.

use crate::script::{Part, number, play};
use kd_registry::Registry;
use kd_types::{ConnId, ListFlags, NameFlags, Text};
use std::alloc::Global;
use std::test::Fail;

/// An acquire, which needs room in the registry.
fn acquire(
    registry: &mut Registry,
    alloc: Global,
    id: ConnId,
    name: &str,
    flags: NameFlags,
) -> Result<String, Fail> {
    let name = Text::of(alloc, name.as_bytes())?;
    if !registry.has_room() {
        return Err("no room")?;
    }
    Ok(format!(in alloc; "{:?}", registry.acquire(id, name, flags))?)
}

/// So many names of its own for a connection.
fn fill(registry: &mut Registry, alloc: Global, id: ConnId, count: u64) -> Result<String, Fail> {
    for number in 0..count {
        let name = format!(in alloc; "x.n{number}")?;
        acquire(registry, alloc, id, name.as_str(), NameFlags(0))?;
    }
    Ok(format!(in alloc; "{}", registry.names_of(alloc, id)?.len())?)
}

fn activate(
    registry: &mut Registry,
    alloc: Global,
    id: ConnId,
    name: &str,
) -> Result<String, Fail> {
    let name = Text::of(alloc, name.as_bytes())?;
    if !registry.has_room() {
        return Err("no room")?;
    }
    Ok(format!(in alloc; "{:?}", registry.set_activator(id, name))?)
}

/// The id and the standing of each row.
fn list(registry: &Registry, alloc: Global, flags: u64) -> Result<String, Fail> {
    let mut rows = String::new(alloc);
    for row in &registry.listing(alloc, ListFlags(flags))? {
        rows.push_str(format!(in alloc; " {}:{}", row.id.0, row.standing)?.as_str())?;
    }
    Ok(rows)
}

/// Each name that changes its owner when two leave, with the owners before and after.
fn changes(registry: &Registry, alloc: Global, one: ConnId, other: &str) -> Result<String, Fail> {
    let other = ConnId(number(other)?);
    let mut rows = String::new(alloc);
    for change in &registry.changes_without(alloc, &[one, other])? {
        let name = str::from_utf8(change.name.bytes())?;
        rows.push_str(format!(in alloc; " {name}:{}:{}", change.old.0, change.new.0)?.as_str())?;
    }
    Ok(rows)
}

impl Part for Registry {
    fn act(&mut self, alloc: Global, line: &str) -> Result<String, Fail> {
        let mut words = line.split_whitespace();
        let call = words.next().unwrap_or("");
        let first = number(words.next().unwrap_or("0"))?;
        let id = ConnId(first);
        let name = words.next().unwrap_or("");
        let flags = NameFlags(number(words.next().unwrap_or("0"))?);
        match call {
            "acquire" => acquire(self, alloc, id, name, flags),
            "ask" => Ok(format!(in alloc; "{:?}", self.ask(id, name.as_bytes(), flags))?),
            "release" => Ok(format!(in alloc; "{:?}", self.release(id, name.as_bytes()))?),
            "activate" => activate(self, alloc, id, name),
            "owner" => Ok(format!(in alloc; "{:?}", self.owner(name.as_bytes()))?),
            "fill" => fill(self, alloc, id, 63),
            "list" => list(self, alloc, first),
            "changes" => changes(self, alloc, id, name),
            "drop" => {
                self.drop_conn(id);
                Ok(String::new(alloc))
            }
            _ => Err("no such call")?,
        }
    }
}

/// Each script begins with no names. The flags of an acquire are 1 to replace, 2 to allow that, and
/// 4 to queue; those of a list 1 for ids, 2 for owners, 4 for activators and 8 for the queue.
const SCRIPTS: [&str; 7] = [
    // A replaced owner that queues stands next.
    "\
acquire 1 a.b 6 -> Ok(Owner { old: ConnId(0), activator: None })
acquire 3 a.b 4 -> Ok(Queued)
acquire 2 a.b 1 -> Ok(Owner { old: ConnId(1), activator: None })
list 14 ->  2:1 1:2 3:2
drop 2
list 14 ->  1:1 3:2",
    // A replaced owner that doesn't queue goes.
    "\
acquire 1 a.b 2 -> Ok(Owner { old: ConnId(0), activator: None })
acquire 2 a.b 4 -> Ok(Queued)
acquire 2 a.b 1 -> Ok(Owner { old: ConnId(1), activator: None })
list 14 ->  2:1",
    // A queued claim keeps its place and takes the new flags.
    "\
acquire 1 a.b 0 -> Ok(Owner { old: ConnId(0), activator: None })
acquire 2 a.b 4 -> Ok(Queued)
acquire 3 a.b 4 -> Ok(Queued)
acquire 2 a.b 6 -> Ok(Queued)
list 14 ->  1:1 2:2 3:2
release 1 a.b -> Ok(ConnId(2))
acquire 3 a.b 1 -> Ok(Owner { old: ConnId(2), activator: None })
list 14 ->  3:1 2:2",
    // Refusals change nothing.
    "\
acquire 1 a.b 4 -> Ok(Owner { old: ConnId(0), activator: None })
acquire 1 a.b 0 -> Err(AlreadyOwned)
acquire 2 a.b 0 -> Err(NameTaken)
acquire 2 a.b 1 -> Err(NameTaken)
ask 2 a 0 -> Err(BadName)
release 2 a.b -> Err(NotOwner)
release 2 c.d -> Err(NoSuchName)
release 2 a -> Err(BadName)
list 14 ->  1:1",
    // A connection has 64 claims, in queues too; it may change one that it has.
    "\
acquire 2 a.b 0 -> Ok(Owner { old: ConnId(0), activator: None })
acquire 1 a.b 4 -> Ok(Queued)
fill 1 -> 63
ask 1 y.z 0 -> Err(TooMany { limit: 64 })
acquire 1 a.b 4 -> Ok(Queued)
ask 2 y.z 0 -> Ok(Owner { old: ConnId(0), activator: None })",
    // An activator owns while nobody else does.
    "\
activate 9 a.b -> Ok(())
activate 8 a.b -> Err(NameTaken)
activate 8 a -> Err(BadName)
owner 0 a.b -> Some((ConnId(9), true))
acquire 1 a.b 0 -> Ok(Owner { old: ConnId(9), activator: Some(ConnId(9)) })
owner 0 a.b -> Some((ConnId(1), false))
acquire 2 a.b 4 -> Ok(Queued)
list 14 ->  1:1 2:2 9:4
list 1
list 2 ->  1:1
list 4 ->  9:4
list 8 ->  2:2
drop 2
release 1 a.b -> Ok(ConnId(9))
drop 9
owner 0 a.b -> None",
    // Two that leave together change each owner once.
    "\
acquire 1 c.d 4 -> Ok(Owner { old: ConnId(0), activator: None })
acquire 1 a.b 4 -> Ok(Owner { old: ConnId(0), activator: None })
acquire 2 a.b 4 -> Ok(Queued)
acquire 3 a.b 4 -> Ok(Queued)
acquire 3 e.f 4 -> Ok(Owner { old: ConnId(0), activator: None })
changes 2 1 ->  a.b:1:3 c.d:1:0",
];

#[test]
fn names_have_owners_queues_and_activators(rt: HostRuntime) -> Result<(), Fail> {
    for script in SCRIPTS {
        play(rt.alloc(), &mut Registry::make(rt.alloc())?, script)?;
    }
    Ok(())
}
