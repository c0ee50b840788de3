//! A run over frames, replies or lines.

ghost use Rattle.std.specs.Prelude.{◌≡◌, ◌≢◌, ◌↔◌, ◌≤◌, length};
ghost use Rattle.kd_outside.specs.Causes.{Rose};
ghost use Rattle.kd_show.specs.Words.{AskForNothing};
ghost use Rattle.kd_show.specs.Ends.{WorksSo, IsEnd};

use crate::words::{Work, work_of};
use kd_lines::{End, make, show};
use kd_outside::{InputError, Sink, Source, read_to_end};
use std::alloc::Global;

/// How many bytes a run takes at most: it holds its whole input, and a replay takes no more.
const MOST_INPUT: usize = 16_777_216;

/// Does the work over bytes.
fn work_over<K: Sink>(alloc: Global, work: Work, bytes: &[u8], sink: &mut K) -> End
    requires { length bytes.now ≤ 16777216 }
    ensures worked { WorksSo work bytes.now (K.held sink.old) (K.held sink.new) result }
    ensures fault { result ≡ End.WriteFault → Rose (K.faults sink.old) (K.faults sink.new) }
    ensures words { result ≢ End.BadWords }
{
    match work {
        Work::Show(kind) => show(alloc, kind, bytes, sink),
        Work::Make => make(alloc, bytes, sink),
    }
}

/// The run of `frames`, `replies` or `make`: reads the source to its end, and writes what it comes
/// to.
///
/// The words are those that follow the program's name. Each end says in [`End`] why it came; the
/// clauses say when it can.
#[tactic(auto, using(crate::proofs::Asked::something))]
pub fn show_run<S: Source, K: Sink>(
    alloc: Global,
    words: &[&str],
    source: &mut S,
    sink: &mut K,
) -> End
    // What was read and written, by the end.
    ensures run { IsEnd words.now (S.left source.old) (S.left source.new) (K.held sink.old) (K.held sink.new) result }
    ensures bad_words { result ≡ End.BadWords ↔ AskForNothing words.now }
    ensures read_fault { result ≡ End.ReadFault → Rose (S.faults source.old) (S.faults source.new) }
    ensures write_fault { result ≡ End.WriteFault → Rose (K.faults sink.old) (K.faults sink.new) }
{
    let Some(work) = work_of(words) else {
        return End::BadWords;
    };
    match read_to_end(alloc, source, MOST_INPUT) {
        Ok(bytes) => work_over(alloc, work, &bytes, sink),
        Err(InputError::Fault) => End::ReadFault,
        Err(InputError::TooMuch) => End::TooMuchInput,
        Err(InputError::Memory) => End::OutOfMemory,
    }
}
