//! The run of `record`: frames that are read, and the trace of their run that is written.

ghost use Rattle.std.specs.Prelude.{◌≡◌, ◌↔◌, ◌≤◌, length};
ghost use Rattle.kd_outside.specs.Causes.{Rose};
ghost use Rattle.kd_trace.specs.Words.{AreRecord};
ghost use Rattle.kd_trace.specs.Record.{IsRecordEnd, RecordResult};

use crate::recording::Recorder;
use crate::words::is_only;
use kd_outside::{InputError, Sink, Source, read_to_end, write_whole};
use kd_replay::{frame_size, open, run_frame};
use kd_types::Status;
use std::alloc::Global;

/// How many bytes a record takes at most: it holds its whole input.
const MOST_RECORDED: usize = 16_777_216;

/// Runs frame after frame, as a replay does, and writes the trace of the run in place of the
/// replies. The events of a frame are written whole before the next frame is run.
fn record_frames<K: Sink>(alloc: Global, bytes: &[u8], sink: &mut K) -> Status
    requires { length bytes.now ≤ 16777216 }
    ensures recorded { RecordResult bytes.now (K.held sink.old) (K.held sink.new) result }
    ensures fault { result ≡ Status.WriteFault → Rose (K.faults sink.old) (K.faults sink.new) }
{
    let Ok(mut world) = open(alloc) else {
        return Status::OutOfMemory;
    };
    let mut recorder = Recorder::make(alloc);
    let mut rest = bytes;
    let mut at = 0;
    'frames: while let Some(size) = frame_size(rest) {
        let (frame, behind) = rest.split_at(size);
        recorder.clear();
        let Ok(_) = run_frame(&mut world, alloc, frame, &mut recorder) else {
            return Status::OutOfMemory;
        };
        let Ok(()) = write_whole(sink, &recorder.written) else {
            return Status::WriteFault;
        };
        rest = behind;
        at += size;
    }
    if rest.is_empty() {
        Status::Done
    } else {
        Status::BadFrame { at: at as u64 }
    }
}

/// The run of `record`: reads the source to its end, runs its frames as a replay does, and writes
/// the trace of the run. A frame that is refused by its form leaves nothing in it.
///
/// The words are those that follow the program's name. Each end says in [`Status`] why it came; the
/// clauses say when it can.
pub fn record_run<S: Source, K: Sink>(
    alloc: Global,
    words: &[&str],
    source: &mut S,
    sink: &mut K,
) -> Status
    // What was read and written, by the end: at `Done` the trace of the run that the frames make,
    // which is right to its end.
    ensures run { IsRecordEnd (S.left source.old) (S.left source.new) (K.held sink.old)
        (K.held sink.new) result }
    ensures bad_words { result ≡ Status.BadWords ↔ ¬ AreRecord words.now }
    ensures read_fault { result ≡ Status.ReadFault
        → Rose (S.faults source.old) (S.faults source.new) }
    ensures write_fault { result ≡ Status.WriteFault
        → Rose (K.faults sink.old) (K.faults sink.new) }
{
    if !is_only(words, "record") {
        return Status::BadWords;
    }
    match read_to_end(alloc, source, MOST_RECORDED) {
        Ok(bytes) => record_frames(alloc, &bytes, sink),
        Err(InputError::Fault) => Status::ReadFault,
        Err(InputError::TooMuch) => Status::TooMuchInput,
        Err(InputError::Memory) => Status::OutOfMemory,
    }
}
