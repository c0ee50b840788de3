//! Records of frames over sources and sinks in memory.

use crate::table::{SELF, items_of};
use kd_outside::{MemSink, MemSource};
use kd_trace::{check_run, record_run};
use kd_types::Status;
use std::alloc::{AllocError, Global};
use std::test::Fail;

/// The words of the frames of a connection that sends itself a message, receives, reads and frees
/// it: HELLO, SEND, RECV, READ and FREE.
const FRAMES: [u64; 37] = [
    56, 1, 1, 0, 4096, 0, 0, 120, 2, 1, 0, 88, 0, 0, 1, 0, 0, 0, 0, 18, 1, 26984, 40, 3, 1, 0, 0,
    40, 4, 1, 0, 0, 40, 5, 1, 0, 0,
];

/// The words of a frame that is refused by its form.
const REFUSED: [u64; 4] = [32, 99, 1, 0];

fn bytes_of(alloc: Global, words: &[u64]) -> Result<Vec<u8>, AllocError> {
    let mut bytes = Vec::new(alloc);
    for word in words {
        bytes.extend_from_slice(&word.to_le_bytes())?;
    }
    Ok(bytes)
}

/// How the record of bytes ends, and what it writes.
fn record_of(alloc: Global, bytes: &[u8]) -> Result<(Status, Vec<u8>), Fail> {
    let mut source = MemSource::make(bytes.to_vec(alloc)?, Vec::new(alloc), Vec::new(alloc));
    let mut sink = MemSink::make(vec![in alloc; 0u8; 4096]?, Vec::new(alloc));
    let status = record_run(alloc, &["record"], &mut source, &mut sink);
    Ok((status, sink.held().to_vec(alloc)?))
}

#[test]
fn a_record_has_a_pair_for_each_event(rt: HostRuntime) -> Result<(), Fail> {
    let alloc = rt.alloc();
    let (wanted, places) = items_of(alloc, SELF)?;
    let (status, written) = record_of(alloc, &bytes_of(alloc, &FRAMES)?)?;
    assert_eq!(rt; status, Status::Done);
    assert_eq!(rt; (written.len(), places.len()), (920, 20));
    assert_eq!(rt; written, wanted);
    Ok(())
}

#[test]
fn what_is_recorded_is_right(rt: HostRuntime) -> Result<(), Fail> {
    let alloc = rt.alloc();
    let (_, written) = record_of(alloc, &bytes_of(alloc, &FRAMES)?)?;
    let mut source = MemSource::make(written, Vec::new(alloc), Vec::new(alloc));
    let mut sink = MemSink::make(vec![in alloc; 0u8; 64]?, Vec::new(alloc));
    assert_eq!(rt;
        check_run(alloc, &["check"], &mut source, &mut sink),
        Status::Done
    );
    assert_eq!(rt; sink.held(), "yes\n".as_bytes());
    Ok(())
}

#[test]
fn a_refused_frame_leaves_no_event(rt: HostRuntime) -> Result<(), Fail> {
    let alloc = rt.alloc();
    let mut bytes = bytes_of(alloc, &REFUSED)?;
    let (status, written) = record_of(alloc, &bytes)?;
    assert_eq!(rt; status, Status::Done);
    assert!(rt; written.is_empty());
    bytes.extend_from_slice(&bytes_of(alloc, &FRAMES)?)?;
    let (wanted, _) = items_of(alloc, SELF)?;
    assert_eq!(rt; record_of(alloc, &bytes)?.1, wanted);
    Ok(())
}

#[test]
fn a_record_ends_where_no_frame_stands(rt: HostRuntime) -> Result<(), Fail> {
    let alloc = rt.alloc();
    let (wanted, _) = items_of(alloc, SELF)?;
    let mut bytes = bytes_of(alloc, &FRAMES)?;
    bytes.extend_from_slice(&[40, 0, 0])?;
    let (status, written) = record_of(alloc, &bytes)?;
    assert_eq!(rt; status, Status::BadFrame { at: 296 });
    assert_eq!(rt; written, wanted);
    Ok(())
}

/// How many bytes of the trace stand behind each frame of [`FRAMES`].
const BEHIND: [usize; 5] = [256, 616, 704, 864, 920];

#[test]
fn a_record_ends_where_its_source_or_its_sink_fails(rt: HostRuntime) -> Result<(), Fail> {
    let alloc = rt.alloc();
    let bytes = bytes_of(alloc, &FRAMES)?;
    let (wanted, _) = items_of(alloc, SELF)?;
    for read in 1..=3 {
        let cuts = [17].to_vec(alloc)?;
        let mut source = MemSource::make(
            bytes.as_slice().to_vec(alloc)?,
            cuts,
            [read].to_vec(alloc)?,
        );
        let mut sink = MemSink::make(vec![in alloc; 0u8; 4096]?, Vec::new(alloc));
        let status = record_run(alloc, &["record"], &mut source, &mut sink);
        assert_eq!(rt; status, Status::ReadFault);
        assert!(rt; sink.held().is_empty());
    }
    for (index, behind) in BEHIND.iter().enumerate() {
        let mut source = MemSource::make(
            bytes.as_slice().to_vec(alloc)?,
            Vec::new(alloc),
            Vec::new(alloc),
        );
        let mut sink = MemSink::make(
            vec![in alloc; 0u8; 4096]?,
            [index as u64 + 2].to_vec(alloc)?,
        );
        let status = record_run(alloc, &["record"], &mut source, &mut sink);
        assert!(rt; wanted.starts_with(sink.held()));
        let end = if *behind == wanted.len() {
            Status::Done
        } else {
            Status::WriteFault
        };
        assert_eq!(rt; (status, sink.held().len()), (end, *behind));
    }
    Ok(())
}
