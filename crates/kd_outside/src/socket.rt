//! Links over Unix sockets. They tell nothing of content, and count each error.

ghost use Rattle.std.specs.Prelude.{◌≡◌, ◌+◌, ◌<◌, ◌^◌, refl, length, IfOk, OnErr};
ghost use Rattle.std.specs.declared.option.Option.TheVariants.{None};
ghost use Rattle.std.specs.Io.{ReadsAtMost, WritesAtMost};
ghost use Rattle.kd_outside.specs.Causes.{HasCause};
ghost use Rattle.kd_outside.specs.Told.{Bound, Accepts, with_served};
ghost use Rattle.kd_outside.specs.Edges.{LinkFaults, untold_link, untold_listener};

use crate::gathered::{AT_ONCE, Gathered};
use crate::path::ToldPath;
use crate::service::Listener;
use crate::traits::{Failed, Link, Sink, Source};
use kd_types::SessionEnd;
use std::alloc::{AllocError, Global};
use std::fs;
use std::io::Read;
use std::marker::Model;
use std::os::unix::net::{UnixListener, UnixStream};
use std::rt::Files;
use std::sync::Wait;

/// A connection. What is written is gathered until the next read, so that the frames of one read
/// are answered by one write; what can't be written then is a fault of that read. A peer that is
/// gone is a fault, and no signal comes.
#[derive(Drop)]
pub struct UnixLink {
    stream: UnixStream,
    gathered: Gathered,
    read_faults: u64,
    write_faults: u64,
}

impl Model for UnixLink {
    ghost Value = { LinkFaults };

    ghost view = { λ l. record { reads = l.read_faults; writes = l.write_faults } };
}

impl UnixLink {
    /// A link over this connection.
    pub fn of(alloc: Global, stream: UnixStream) -> Result<UnixLink, AllocError>
        ensures { IfOk result (λ l. l ≡ record { reads = 0; writes = 0 }) }
    {
        Ok(UnixLink {
            stream,
            gathered: Gathered::make(alloc)?,
            read_faults: 0,
            write_faults: 0,
        })
    }
}

impl Source for UnixLink {
    ghost left = { λ _. None };

    ghost faults = { λ l. l.reads };

    ghost beside = { λ l. (untold_link l).writing };

    /// Hands on what was gathered, and reads what there is.
    fn read(&mut self, into: &mut [u8]) -> Result<usize, Failed>
        ensures bound { ReadsAtMost result into.new }
        ensures cause { HasCause self.old.reads self.new.reads result }
        ensures beside { (untold_link self.new).writing ≡ (untold_link self.old).writing }
    {
        self.gathered
            .hand_on(&mut self.stream, &mut self.read_faults)?;
        let room = into.len().min(AT_ONCE);
        let Ok(count) = self.stream.read(into.split_at_mut(room).0) else {
            self.read_faults = self.read_faults.saturating_add(1);
            return Err(Failed);
        };
        Ok(count)
    }
}

impl Sink for UnixLink {
    ghost held = { λ _. None };

    ghost faults = { λ l. l.writes };

    ghost beside = { λ l. (untold_link l).reading };

    /// Gathers the piece, or as much of it as is gathered at once.
    fn write(&mut self, piece: &[u8]) -> Result<usize, Failed>
        ensures bound { WritesAtMost result piece.now }
        ensures some { IfOk result (λ n. 0 < length piece.now → 0 < n) }
        ensures cause { HasCause self.old.writes self.new.writes result }
        ensures beside { (untold_link self.new).reading ≡ (untold_link self.old).reading }
    {
        self.gathered
            .write(&mut self.stream, &mut self.write_faults, piece)
    }
}

impl Link for UnixLink {
    ghost told = { untold_link };

    ghost reads = { λ _. refl };

    ghost writes = { λ _. refl };

    ghost read_keeps = { λ _. refl };

    ghost write_keeps = { λ _. refl };

    /// Hands on what was gathered.
    fn finish(&mut self) -> Result<(), Failed>
        ensures cause { HasCause self.old.writes self.new.writes result }
        ensures written { (untold_link self.new).writing.bytes
            ≡ (untold_link self.old).writing.bytes }
        ensures kept { (untold_link self.new).reading ≡ (untold_link self.old).reading }
    {
        self.gathered
            .hand_on(&mut self.stream, &mut self.write_faults)
    }
}

/// A socket's file, at which connections are accepted. Contracts see its path and its counts.
#[derive(Drop)]
pub struct UnixListen {
    inner: UnixListener,
    alloc: Global,
    gave: u64,
    returned: u64,
    faults: u64,
    path: ToldPath,
}

impl Model for UnixListen {
    ghost Value = { Bound };

    ghost view = { λ n. record {
      path = n.path;
      listener = untold_listener n.gave n.returned n.faults;
    } };

    ghost invariant = { λ n. n.gave < 2 ^ 64 };
}

/// The next connection, as a link, and the count of those that were given, with it. A count that
/// stands at its type's end is a fault.
fn next_link(alloc: Global, inner: &UnixListener, gave: u64) -> Result<(UnixLink, u64), Failed>
    ensures link { IfOk result (λ r. r.0 ≡ record { reads = 0; writes = 0 }) }
    ensures gave { IfOk result (λ r. r.1 ≡ gave + 1) }
{
    let gave = gave.checked_add(1).ok_or(Failed)?;
    let (stream, _) = inner.accept().map_err(|_| Failed)?;
    let link = UnixLink::of(alloc, stream).map_err(|_| Failed)?;
    Ok((link, gave))
}

impl UnixListen {
    /// A listener that accepted nothing yet.
    pub(crate) fn of(alloc: Global, inner: UnixListener, path: &str) -> UnixListen
        ensures { result ≡ record { path = path.now; listener = untold_listener 0 0 0 } }
    {
        UnixListen {
            inner,
            alloc,
            gave: 0,
            returned: 0,
            faults: 0,
            path: ToldPath::of(path),
        }
    }

    /// Takes the socket's file away.
    pub(crate) fn take_away<R: Files>(self, rt: &R) {
        let Ok(address) = self.inner.local_addr() else {
            return;
        };
        if let Some(path) = address.as_pathname() {
            let _ = fs::remove_file(rt, path);
        }
    }
}

impl Listener for UnixListen {
    type L = UnixLink;

    ghost told = { λ n. n.listener };

    ghost path = { λ n. n.path };

    /// Waits for the next connection. Want of memory for it is a fault.
    fn accept<R: Wait>(&mut self, _rt: &R) -> Result<UnixLink, Failed>
        ensures cause { HasCause self.old.listener.faults self.new.listener.faults result }
        ensures given { IfOk result
            (λ link. Accepts self.old.listener self.new.listener (untold_link link)) }
        ensures failed { OnErr result
            (self.new.listener ≡ record (self.old.listener) { faults = self.new.listener.faults }) }
        ensures path { self.new.path ≡ self.old.path }
    {
        let Ok((link, gave)) = next_link(self.alloc, &self.inner, self.gave) else {
            self.faults = self.faults.saturating_add(1);
            return Err(Failed);
        };
        self.gave = gave;
        Ok(link)
    }

    /// Hands on what the link gathered, and closes it.
    fn done(&mut self, link: UnixLink, end: SessionEnd)
        requires { self.old.listener.returned < self.old.listener.gave }
        ensures back { self.new.listener ≡ with_served (untold_link link) end self.old.listener }
        ensures path { self.new.path ≡ self.old.path }
    {
        let mut link = link;
        let _ = link.finish();
        self.returned += 1;
    }
}
