//! The program `kd_show`: frames and replies of the bus as lines for people, and lines as frames.
//!
//! ```text
//! kd_show frames      command frames   ->  a line for each
//! kd_show replies     replies          ->  a line for each
//! kd_show make        lines            ->  the frame of each
//! ```
//!
//! It reads the standard input to its end and writes to the standard output; nothing else goes
//! there.
#![tactic(auto)]

mod run;
mod words;

use kd_lines::End;
use kd_outside::{StdSink, StdSource};
pub use run::show_run;
use std::alloc::{AllocError, Global};
use std::process::ExitCode;
use std::{env, io};

/// Runs over the standard streams, and hands on what was gathered for the standard output.
fn run_over_streams(
    alloc: Global,
    words: &[String],
    input: io::Stdin,
    output: io::Stdout,
) -> Result<End, AllocError> {
    let mut texts = Vec::with_capacity(alloc, words.len())?;
    for word in words {
        texts.push(word.as_str())?;
    }
    let mut source = StdSource::make(input);
    let mut sink = StdSink::make(alloc, output)?;
    let end = show_run(alloc, &texts, &mut source, &mut sink);
    if sink.finish().is_err() {
        return Ok(End::WriteFault);
    }
    Ok(end)
}

fn main(rt: HostRuntime) -> io::Result<ExitCode> {
    let alloc = rt.alloc();
    let end = match env::args(&rt) {
        Ok(args) => match args.skip(1).collect::<Vec<String>>(alloc) {
            Ok(words) => run_over_streams(alloc, &words, rt.stdin(), rt.stdout()).unwrap_or(
                End::OutOfMemory,
            ),
            Err(_) => End::OutOfMemory,
        },
        Err(error) if error.kind() == io::ErrorKind::OutOfMemory => End::OutOfMemory,
        Err(_) => End::BadWords,
    };
    if end != End::Done {
        eprintln!(rt; "{end}")?;
    }
    Ok(ExitCode::from(end.number()))
}
