//! Checks whose source or sink fails.

use crate::table::{SELF, items_of};
use kd_outside::{MemSink, MemSource};
use kd_trace::check_run;
use kd_types::Status;
use std::test::Fail;

/// Reads and writes that fail, room for what is written, how the check ends, and what is written.
const ENDS: &[(&[u64], &[u64], usize, Status, &str)] = &[
    (&[], &[], 64, Status::Done, "yes\n"),
    (&[1], &[], 64, Status::ReadFault, ""),
    (&[2], &[], 64, Status::ReadFault, ""),
    (&[3], &[], 64, Status::ReadFault, ""),
    (&[4], &[], 64, Status::Done, "yes\n"),
    (&[], &[1], 64, Status::WriteFault, ""),
    (&[], &[2], 64, Status::Done, "yes\n"),
    (&[], &[2], 2, Status::WriteFault, "ye"),
    (&[], &[], 0, Status::WriteFault, ""),
];

#[test]
fn a_check_ends_where_its_source_or_its_sink_fails(rt: HostRuntime) -> Result<(), Fail> {
    let alloc = rt.alloc();
    let (bytes, _) = items_of(alloc, SELF)?;
    for (reads, writes, room, end, written) in ENDS {
        let cuts = [17].to_vec(alloc)?;
        let mut source = MemSource::make(
            bytes.as_slice().to_vec(alloc)?,
            cuts,
            reads.to_vec(alloc)?,
        );
        let mut sink = MemSink::make(vec![in alloc; 0u8; *room]?, writes.to_vec(alloc)?);
        let status = check_run(alloc, &["check"], &mut source, &mut sink);
        assert_eq!(rt; status, *end);
        assert_eq!(rt; sink.held(), written.as_bytes());
    }
    Ok(())
}

#[test]
fn other_words_than_check_read_and_write_nothing(rt: HostRuntime) -> Result<(), Fail> {
    let alloc = rt.alloc();
    let words: [&[&str]; 5] = [&[], &["x"], &["check", "x"], &["record"], &["check "]];
    for list in words {
        let mut source = MemSource::make(Vec::new(alloc), Vec::new(alloc), [1].to_vec(alloc)?);
        let mut sink = MemSink::make(Vec::new(alloc), [1].to_vec(alloc)?);
        let status = check_run(alloc, list, &mut source, &mut sink);
        assert_eq!(rt; status, Status::BadWords);
    }
    Ok(())
}
