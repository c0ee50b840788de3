//! Links in memory.

use kd_outside::{Failed, Link, MemLink, MemSink, MemSource, Sink, Source};
use std::alloc::{AllocError, Global};
use std::test::Fail;

/// A link with three bytes to be read, cut behind the second, and room for three. Its second read
/// and its second write fail.
fn cut_link(alloc: Global) -> Result<MemLink, AllocError> {
    let cuts = vec![in alloc; 2usize]?;
    let source = MemSource::make(b"abc".to_vec(alloc)?, cuts, vec![in alloc; 2u64]?);
    let sink = MemSink::make(vec![in alloc; 0u8; 3]?, vec![in alloc; 2u64]?);
    Ok(MemLink::make(source, sink))
}

#[test]
fn a_link_reads_and_writes_side_by_side(rt: HostRuntime) -> Result<(), Fail> {
    let mut link = cut_link(rt.alloc())?;
    let mut into = [0u8; 4];
    assert_eq!(rt; link.read(&mut into), Ok(2));
    assert_eq!(rt; link.write(b"xy"), Ok(2));
    assert_eq!(rt; link.read(&mut into), Err(Failed));
    assert_eq!(rt; link.write(b"zz"), Err(Failed));
    assert_eq!(rt; into, *b"ab\0\0");
    assert_eq!(rt; link.held(), b"xy".as_slice());
    Ok(())
}

#[test]
fn a_link_ends_where_nothing_is_left_and_nothing_fits(rt: HostRuntime) -> Result<(), Fail> {
    let mut link = cut_link(rt.alloc())?;
    let mut into = [0u8; 4];
    for wanted in [Ok(2), Err(Failed), Ok(1), Ok(0)] {
        assert_eq!(rt; link.receive(&mut into), wanted);
    }
    assert_eq!(rt; into, *b"cb\0\0");
    for wanted in [Ok(2), Err(Failed), Ok(1), Err(Failed)] {
        assert_eq!(rt; link.send(b"xy"), wanted);
    }
    assert_eq!(rt; link.finish(), Ok(()));
    assert_eq!(rt; link.held(), b"xyx".as_slice());
    assert_eq!(rt; link.end(), None);
    Ok(())
}
