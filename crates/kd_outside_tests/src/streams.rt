//! Sources and sinks in memory: where pieces end, and which calls fail.

use kd_outside::{Failed, InputError, MemSink, MemSource, Sink, Source, read_to_end, write_whole};
use std::test::Fail;

#[test]
fn a_read_ends_at_the_least_cut_above_its_place(rt: HostRuntime) -> Result<(), Fail> {
    let alloc = rt.alloc();
    let cuts = vec![in alloc; 7usize, 3, 3, 0]?;
    let mut source = MemSource::make(b"0123456789".to_vec(alloc)?, cuts, Vec::new(alloc));
    let mut into = [0u8; 4];
    let mut counts = Vec::new(alloc);
    for _ in 0..5 {
        counts.push(source.read(&mut into).map_err(|_| "failed")?)?;
    }
    assert_eq!(rt; counts.as_slice(), [3usize, 4, 3, 0, 0].as_slice());
    Ok(())
}

#[test]
fn the_named_calls_fail_and_take_nothing(rt: HostRuntime) -> Result<(), Fail> {
    let alloc = rt.alloc();
    let mut source = MemSource::make(
        b"ab".to_vec(alloc)?,
        Vec::new(alloc),
        vec![in alloc; 1u64, 3]?,
    );
    let mut into = [0u8; 1];
    assert_eq!(rt; source.read(&mut into), Err(Failed));
    assert_eq!(rt; source.read(&mut into), Ok(1));
    assert_eq!(rt; source.read(&mut into), Err(Failed));
    assert_eq!(rt; source.read(&mut into), Ok(1));
    assert_eq!(rt; into, *b"b");
    Ok(())
}

#[test]
fn a_sink_takes_what_fits_and_then_fails(rt: HostRuntime) -> Result<(), Fail> {
    let alloc = rt.alloc();
    let mut sink = MemSink::make(vec![in alloc; 0u8; 3]?, vec![in alloc; 2u64]?);
    assert_eq!(rt; sink.write(b"ab"), Ok(2));
    assert_eq!(rt; sink.write(b"cd"), Err(Failed));
    assert_eq!(rt; sink.write(b"cd"), Ok(1));
    assert_eq!(rt; sink.write(b""), Ok(0));
    assert_eq!(rt; sink.write(b"d"), Err(Failed));
    assert_eq!(rt; sink.held(), b"abc".as_slice());
    Ok(())
}

#[test]
fn input_is_read_to_its_end_or_up_to_the_limit(rt: HostRuntime) -> Result<(), Fail> {
    let alloc = rt.alloc();
    for (limit, wanted) in [(4usize, true), (3, false)] {
        let mut source = MemSource::make(
            b"abcd".to_vec(alloc)?,
            vec![in alloc; 1usize, 2]?,
            Vec::new(alloc),
        );
        match read_to_end(alloc, &mut source, limit) {
            Ok(bytes) => assert!(rt; wanted && bytes.as_slice() == b"abcd".as_slice()),
            Err(error) => assert!(rt; !wanted && error == InputError::TooMuch),
        }
    }
    Ok(())
}

#[test]
fn a_whole_piece_is_written_in_parts(rt: HostRuntime) -> Result<(), Fail> {
    let alloc = rt.alloc();
    let mut sink = MemSink::make(vec![in alloc; 0u8; 3]?, Vec::new(alloc));
    assert_eq!(rt; write_whole(&mut sink, b"abc"), Ok(()));
    assert_eq!(rt; write_whole(&mut sink, b""), Ok(()));
    assert_eq!(rt; write_whole(&mut sink, b"d"), Err(Failed));
    assert_eq!(rt; sink.held(), b"abc".as_slice());
    Ok(())
}
