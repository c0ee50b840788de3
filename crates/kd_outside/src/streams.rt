//! The standard streams: the edge that is trusted. They tell nothing of content, and count each
//! error.

ghost use Rattle.std.specs.Prelude.{◌≡◌, ℕ, IfOk};
ghost use Rattle.std.specs.declared.option.Option.TheVariants.{None};
ghost use Rattle.kd_outside.specs.Causes.{HasCause};
ghost use Rattle.kd_outside.specs.Told.{no_side};

use crate::gathered::Gathered;
use crate::traits::{Failed, Sink, Source};
use std::alloc::{AllocError, Global};
use std::io::{Read, Stdin, Stdout};
use std::marker::Model;

/// The standard input. A contract sees how often it has failed.
#[derive(Drop)]
pub struct StdSource {
    inner: Stdin,
    faults: u64,
}

impl Model for StdSource {
    ghost Value = { ℕ };

    ghost view = { λ s. s.faults };
}

impl StdSource {
    /// A source that reads the standard input.
    pub fn make(inner: Stdin) -> StdSource
        ensures { result ≡ 0 }
    {
        StdSource { inner, faults: 0 }
    }
}

impl Source for StdSource {
    ghost left = { λ _. None };

    ghost faults = { λ s. s };

    ghost beside = { λ _. no_side };

    fn read(&mut self, into: &mut [u8]) -> Result<usize, Failed> {
        match self.inner.read(into) {
            Ok(count) => Ok(count),
            Err(_) => {
                self.faults = self.faults.saturating_add(1);
                Err(Failed)
            }
        }
    }
}

/// The standard output, which gathers small writes. A contract sees how often it has failed.
#[derive(Drop)]
pub struct StdSink {
    inner: Stdout,
    gathered: Gathered,
    faults: u64,
}

impl Model for StdSink {
    ghost Value = { ℕ };

    ghost view = { λ s. s.faults };
}

impl StdSink {
    /// A sink that writes to the standard output, once [`StdSink::finish`] is called.
    pub fn make(alloc: Global, inner: Stdout) -> Result<StdSink, AllocError>
        ensures { IfOk result (λ s. s ≡ 0) }
    {
        Ok(StdSink {
            inner,
            gathered: Gathered::make(alloc)?,
            faults: 0,
        })
    }

    /// Hands on what was gathered; a failure drops it.
    pub fn finish(&mut self) -> Result<(), Failed>
        ensures cause { HasCause self.old self.new result }
    {
        self.gathered.hand_on(&mut self.inner, &mut self.faults)
    }
}

impl Sink for StdSink {
    ghost held = { λ _. None };

    ghost faults = { λ s. s };

    ghost beside = { λ _. no_side };

    /// Gathers the piece, or as much of it as is gathered at once.
    fn write(&mut self, piece: &[u8]) -> Result<usize, Failed> {
        self.gathered
            .write(&mut self.inner, &mut self.faults, piece)
    }
}
