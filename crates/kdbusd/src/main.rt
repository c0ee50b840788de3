//! The program `kdbusd`: a message bus in user space after kdbus.
//!
//! `kdbusd replay` reads recorded command frames from the standard input and writes the replies to
//! the standard output. `kdbusd record` writes the trace of that run instead. `kdbusd check` reads
//! such a trace, and writes whether the run was legal and was answered as it had to be.
#![tactic(auto)]

mod choice;
mod run;
mod words;

use choice::Pick;
use kd_outside::{StdSink, StdSource};
use kd_trace::{check_run, record_run};
use kd_types::Status;
pub use run::replay_run;
use std::alloc::{AllocError, Global};
use std::process::ExitCode;
use std::{env, io};
use words::pick;

/// Runs over the standard streams, and hands on what was gathered for the standard output.
fn run_over_streams(
    alloc: Global,
    words: &[String],
    input: io::Stdin,
    output: io::Stdout,
) -> Result<Status, AllocError> {
    let mut texts = Vec::with_capacity(alloc, words.len())?;
    for word in words {
        texts.push(word.as_str())?;
    }
    let mut source = StdSource::make(input);
    let mut sink = StdSink::make(alloc, output)?;
    let status = match pick(&texts) {
        Pick::Replay => replay_run(alloc, &texts, &mut source, &mut sink),
        Pick::Record => record_run(alloc, &texts, &mut source, &mut sink),
        Pick::Check => check_run(alloc, &texts, &mut source, &mut sink),
        Pick::Other => Status::BadWords,
    };
    if sink.finish().is_err() {
        return Ok(Status::WriteFault);
    }
    Ok(status)
}

fn main(rt: HostRuntime) -> io::Result<ExitCode> {
    let alloc = rt.alloc();
    let status = match env::args(&rt) {
        Ok(args) => match args.skip(1).collect::<Vec<String>>(alloc) {
            Ok(words) => run_over_streams(alloc, &words, rt.stdin(), rt.stdout()).unwrap_or(
                Status::OutOfMemory,
            ),
            Err(_) => Status::OutOfMemory,
        },
        Err(error) if error.kind() == io::ErrorKind::OutOfMemory => Status::OutOfMemory,
        Err(_) => Status::BadWords,
    };
    if status != Status::Done {
        eprintln!(rt; "{status}")?;
    }
    Ok(ExitCode::from(status.number()))
}

#[cfg(test)]
mod tests;
