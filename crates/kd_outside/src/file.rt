//! A file as a source. It tells nothing of content, and counts each error.

ghost use Rattle.std.specs.Prelude.{◌≡◌, ℕ};
ghost use Rattle.std.specs.declared.option.Option.TheVariants.{None};
ghost use Rattle.kd_outside.specs.Told.{no_side};

use crate::traits::{Failed, Source};
use std::fs;
use std::io::Read;
use std::marker::Model;
use std::rt::Files;

/// The bytes of a file. A contract sees how often it has failed.
#[derive(Drop)]
pub struct FileSource<F> {
    inner: Option<F>,
    faults: u64,
}

impl<F> Model for FileSource<F> {
    ghost Value = { ℕ };

    ghost view = { λ s. s.faults };
}

impl<F> FileSource<F> {
    /// The file at this path. If it can't be had, each read fails.
    pub fn of<R: Files<File = F>>(rt: &R, path: &str) -> FileSource<F>
        ensures { result ≡ 0 }
    {
        FileSource {
            inner: fs::open(rt, path).ok(),
            faults: 0,
        }
    }
}

impl<F: Read> Source for FileSource<F> {
    ghost left = { λ _. None };

    ghost faults = { λ s. s };

    ghost beside = { λ _. no_side };

    fn read(&mut self, into: &mut [u8]) -> Result<usize, Failed> {
        if let Some(file) = &mut self.inner {
            if let Ok(count) = file.read(into) {
                return Ok(count);
            }
        }
        self.faults = self.faults.saturating_add(1);
        Err(Failed)
    }
}
