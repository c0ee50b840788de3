//! A link in memory: a source and a sink in one, and the end with which it came back.

ghost use Rattle.std.specs.Prelude.{◌≡◌, ◌<◌, ◌↔◌, min, length, refl, IsTrue, IsOk, IsErr, IfOk};
ghost use Rattle.std.specs.declared.option.Option.TheVariants.{None, Some};
ghost use Rattle.std.specs.Io.{ReadsAtMost, WritesAtMost};
ghost use Rattle.std.specs.Io.KnownBytes.{ReadConsumes, WriteAppends};
ghost use Rattle.kd_outside.specs.Causes.{HasCause};
ghost use Rattle.kd_outside.specs.Memory.{Line, line_state, unread_bytes, room_of, fails_next, refuses, piece_length, after_read, after_write};

use crate::shelf::MemSink;
use crate::tape::MemSource;
use crate::traits::{Failed, Link, Sink, Source};
use kd_types::SessionEnd;
use std::marker::Model;

/// A link over memory. It reads as its source does and writes as its sink does.
#[derive(Debug, Drop)]
pub struct MemLink {
    source: MemSource,
    sink: MemSink,
    ended: Option<SessionEnd>,
}

impl Model for MemLink {
    ghost Value = { Line };

    ghost view = { λ l. record { source = l.source; sink = l.sink; ended = l.ended } };
}

impl MemLink {
    /// A link of these two, which hasn't come back yet. It takes no memory.
    pub fn make(source: MemSource, sink: MemSink) -> MemLink
        ensures { result ≡ record { source = source; sink = sink; ended = None } }
    {
        MemLink {
            source,
            sink,
            ended: None,
        }
    }

    /// What was written on the link.
    pub fn held(&self) -> &[u8]
        ensures { result.now ≡ self.now.sink.held }
    {
        self.sink.held()
    }

    /// The end with which the link came back to its listener; none before that.
    pub fn end(&self) -> Option<SessionEnd>
        ensures { result ≡ self.now.ended }
    {
        self.ended
    }

    /// The link, come back with this end.
    pub(crate) fn with_end(self, end: SessionEnd) -> MemLink
        ensures { result ≡ record self { ended = Some end } }
    {
        MemLink {
            ended: Some(end),
            ..self
        }
    }
}

impl Source for MemLink {
    ghost left = { λ l. Some (unread_bytes l.source) };

    ghost faults = { λ l. l.source.calls.faults };

    ghost beside = { λ l. (line_state l).writing };

    /// Reads the next piece of what is left; fails at the reads that were named, and at no other.
    fn read(&mut self, into: &mut [u8]) -> Result<usize, Failed>
        ensures bound { ReadsAtMost result into.new }
        ensures bytes { ReadConsumes
            (line_state self.old).reading.bytes (line_state self.new).reading.bytes
            result into.new }
        ensures cause { HasCause self.old.source.calls.faults self.new.source.calls.faults result }
        ensures beside { (line_state self.new).writing ≡ (line_state self.old).writing }
        ensures failing { IsErr result ↔ IsTrue (fails_next self.old.source.calls) }
        ensures count { IfOk result (λ n. n ≡ piece_length self.old.source (length into.old)) }
        ensures after { self.new
            ≡ record self.old { source = after_read (length into.old) self.old.source } }
    {
        self.source.read(into)
    }
}

impl Sink for MemLink {
    ghost held = { λ l. Some l.sink.held };

    ghost faults = { λ l. l.sink.calls.faults };

    ghost beside = { λ l. (line_state l).reading };

    /// Takes as much of the piece as fits; fails at the writes that were named and where nothing
    /// fits, and at no other.
    fn write(&mut self, piece: &[u8]) -> Result<usize, Failed>
        ensures bound { WritesAtMost result piece.now }
        ensures some { IfOk result (λ n. 0 < length piece.now → 0 < n) }
        ensures bytes { WriteAppends
            (line_state self.old).writing.bytes (line_state self.new).writing.bytes
            result piece.now }
        ensures cause { HasCause self.old.sink.calls.faults self.new.sink.calls.faults result }
        ensures beside { (line_state self.new).reading ≡ (line_state self.old).reading }
        ensures failing { IsErr result ↔ IsTrue (refuses piece.now self.old.sink) }
        ensures count { IfOk result (λ n. n ≡ min (room_of self.old.sink) (length piece.now)) }
        ensures after { self.new ≡ record self.old { sink = after_write piece.now self.old.sink } }
    {
        self.sink.write(piece)
    }
}

impl Link for MemLink {
    ghost told = { line_state };

    ghost reads = { λ _. refl };

    ghost writes = { λ _. refl };

    ghost read_keeps = { λ _. refl };

    ghost write_keeps = { λ _. refl };

    /// Nothing is gathered here.
    fn finish(&mut self) -> Result<(), Failed>
        ensures cause { HasCause self.old.sink.calls.faults self.new.sink.calls.faults result }
        ensures written { (line_state self.new).writing.bytes
            ≡ (line_state self.old).writing.bytes }
        ensures kept { (line_state self.new).reading ≡ (line_state self.old).reading }
        ensures fine { IsOk result }
        ensures after { self.new ≡ self.old }
    {
        Ok(())
    }
}
