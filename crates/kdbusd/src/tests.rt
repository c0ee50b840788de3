//! The program over sources and sinks in memory that fail. What it answers stands in `kd_rows`.

use super::replay_run;
use kd_outside::{MemSink, MemSource};
use kd_types::Status;
use std::alloc::{AllocError, Global};
use std::test::Fail;

/// The words of a HELLO with a pool of 4,096 bytes and of a command 99, and of their replies.
const FRAMES: [u64; 11] = [56, 1, 1, 0, 4096, 0, 0, 32, 99, 1, 0];

const REPLIES: [u64; 12] = [56, 1, 1, 0, 1, 64, 8, 40, 99, 1, 2, 99];

/// The bytes of words, the lowest byte of each first.
fn bytes_of(alloc: Global, words: &[u64]) -> Result<Vec<u8>, AllocError> {
    let mut bytes = Vec::new(alloc);
    for word in words {
        bytes.extend_from_slice(&word.to_le_bytes())?;
    }
    Ok(bytes)
}

/// The frames, in pieces that end at the cuts; the reads of the given numbers fail.
fn source_of(alloc: Global, cuts: &[usize], fails: &[u64]) -> Result<MemSource, AllocError> {
    Ok(MemSource::make(
        bytes_of(alloc, &FRAMES)?,
        cuts.to_vec(alloc)?,
        fails.to_vec(alloc)?,
    ))
}

/// Room for the replies; the writes of the given numbers fail.
fn sink_of(alloc: Global, fails: &[u64]) -> Result<MemSink, AllocError> {
    Ok(MemSink::make(vec![in alloc; 0u8; 96]?, fails.to_vec(alloc)?))
}

/// Reads and writes that fail, how the run ends, and how much of the replies is written.
const ENDS: [(&[u64], &[u64], Status, usize); 3] = [
    (&[], &[], Status::Done, 96),
    (&[2], &[], Status::ReadFault, 0),
    (&[], &[2], Status::WriteFault, 56),
];

#[test]
fn a_run_ends_where_its_source_or_its_sink_fails(rt: HostRuntime) -> Result<(), Fail> {
    let alloc = rt.alloc();
    let replies = bytes_of(alloc, &REPLIES)?;
    for (reads, writes, end, written) in ENDS {
        let mut source = source_of(alloc, &[1, 2, 3, 40, 41], reads)?;
        let mut sink = sink_of(alloc, writes)?;
        assert_eq!(rt; replay_run(alloc, &["replay"], &mut source, &mut sink), end);
        assert_eq!(rt; sink.held().len(), written);
        assert!(rt; replies.starts_with(sink.held()));
    }
    Ok(())
}

#[test]
fn other_words_than_replay_read_and_write_nothing(rt: HostRuntime) -> Result<(), Fail> {
    let alloc = rt.alloc();
    let words: [&[&str]; 7] = [
        &[],
        &["x"],
        &["replay", "x"],
        &["--help"],
        &["replay "],
        &["record"],
        &["check"],
    ];
    for list in words {
        let (mut source, mut sink) = (source_of(alloc, &[], &[1])?, sink_of(alloc, &[1])?);
        assert_eq!(rt;
            replay_run(alloc, list, &mut source, &mut sink),
            Status::BadWords
        );
        assert!(rt; sink.held().is_empty());
    }
    Ok(())
}

#[test]
fn a_run_without_memory_writes_a_front_of_its_replies(rt: HostRuntime) -> Result<(), Fail> {
    let alloc = rt.alloc();
    let (mut source, mut sink) = (source_of(alloc, &[], &[])?, sink_of(alloc, &[])?);
    let wanted = bytes_of(alloc, &REPLIES)?;
    let status = replay_run(alloc, &["replay"], &mut source, &mut sink);
    assert!(rt; wanted.starts_with(sink.held()));
    assert!(rt;
        status == Status::OutOfMemory || status == Status::Done && sink.held() == wanted.as_slice()
    );
    Ok(())
}
