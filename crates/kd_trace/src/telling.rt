//! The run of `check`: a trace that is read, and its verdict that is written.

ghost use Rattle.std.specs.Prelude.{◌≡◌, ◌↔◌, ◌≤◌, length};
ghost use Rattle.kd_outside.specs.Causes.{Rose};
ghost use Rattle.kd_trace.specs.Words.{AreCheck};
ghost use Rattle.kd_trace.specs.Ends.{CheckResult, IsCheckEnd};

use crate::checking::check_trace;
use crate::verdict::TraceError;
use crate::words::is_only;
use kd_outside::{InputError, Sink, Source, read_to_end, write_whole};
use kd_types::Status;
use std::alloc::Global;

/// How many bytes a check takes at most: it holds its whole input.
const MOST_CHECKED: usize = 268_435_456;

/// Judges bytes, and writes their verdict as a line.
fn check_bytes<K: Sink>(alloc: Global, bytes: &[u8], sink: &mut K) -> Status
    requires { length bytes.now ≤ 268435456 }
    ensures checked { CheckResult bytes.now (K.held sink.old) (K.held sink.new) result }
    ensures fault { result ≡ Status.WriteFault → Rose (K.faults sink.old) (K.faults sink.new) }
{
    let verdict = match check_trace(alloc, bytes) {
        Ok(verdict) => verdict,
        Err(TraceError::Malformed { at }) => return Status::BadTrace { at },
        Err(TraceError::OutOfMemory) => return Status::OutOfMemory,
    };
    let Ok(line) = format!(in alloc; "{verdict}\n") else {
        return Status::OutOfMemory;
    };
    let Ok(()) = write_whole(sink, line.as_bytes()) else {
        return Status::WriteFault;
    };
    Status::Done
}

/// The run of `check`: reads the source to its end, judges it as a trace, and writes `yes`, or `no`
/// with the first pair that isn't right and the byte at which its event begins, and a line feed.
///
/// The words are those that follow the program's name. Each end says in [`Status`] why it came; the
/// clauses say when it can.
pub fn check_run<S: Source, K: Sink>(
    alloc: Global,
    words: &[&str],
    source: &mut S,
    sink: &mut K,
) -> Status
    // What was read and written, by the end: at `Done` the verdict on the bytes that were read, at
    // `BadTrace` nothing, and they break at the byte that is told.
    ensures run { IsCheckEnd (S.left source.old) (S.left source.new) (K.held sink.old)
        (K.held sink.new) result }
    ensures bad_words { result ≡ Status.BadWords ↔ ¬ AreCheck words.now }
    ensures read_fault { result ≡ Status.ReadFault
        → Rose (S.faults source.old) (S.faults source.new) }
    ensures write_fault { result ≡ Status.WriteFault
        → Rose (K.faults sink.old) (K.faults sink.new) }
{
    if !is_only(words, "check") {
        return Status::BadWords;
    }
    match read_to_end(alloc, source, MOST_CHECKED) {
        Ok(bytes) => check_bytes(alloc, &bytes, sink),
        Err(InputError::Fault) => Status::ReadFault,
        Err(InputError::TooMuch) => Status::TooMuchInput,
        Err(InputError::Memory) => Status::OutOfMemory,
    }
}
