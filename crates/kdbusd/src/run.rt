//! A run over recorded frames.

ghost use Rattle.std.specs.Prelude.{◌≡◌, ◌↔◌};
ghost use Rattle.kd_outside.specs.Causes.{Rose};
ghost use Rattle.kdbusd.specs.Words.{AreWords};
ghost use Rattle.kdbusd.specs.Ends.{IsEnd};

use crate::words::{Words, read_words};
use kd_outside::{InputError, Sink, Source, read_to_end};
use kd_replay::replay_frames;
use kd_types::Status;
use std::alloc::Global;

/// How many bytes a run takes at most: it holds its whole input.
const MOST_INPUT: usize = 16_777_216;

/// The run of `replay`: reads the source to its end, and answers its frames, each with one reply.
///
/// The words are those that follow the program's name. Each end says in [`Status`] why it came; the
/// clauses say when it can.
pub fn replay_run<S: Source, K: Sink>(
    alloc: Global,
    words: &[&str],
    source: &mut S,
    sink: &mut K,
) -> Status
    // What was read and written, by the end: at `Done` the model's replies to the frames that were
    // read.
    ensures run { IsEnd (S.left source.old) (S.left source.new) (K.held sink.old) (K.held sink.new) result }
    ensures bad_words { result ≡ Status.BadWords ↔ ¬ AreWords Words.Replay words.now }
    ensures read_fault { result ≡ Status.ReadFault → Rose (S.faults source.old) (S.faults source.new) }
    ensures write_fault { result ≡ Status.WriteFault → Rose (K.faults sink.old) (K.faults sink.new) }
{
    let Ok(Words::Replay) = read_words(words) else {
        return Status::BadWords;
    };
    match read_to_end(alloc, source, MOST_INPUT) {
        Ok(bytes) => replay_frames(alloc, &bytes, sink),
        Err(InputError::Fault) => Status::ReadFault,
        Err(InputError::TooMuch) => Status::TooMuchInput,
        Err(InputError::Memory) => Status::OutOfMemory,
    }
}
