//! Peers that go.

use kd_outside::{Failed, Link, Sink, Source, UnixLink, write_whole};
use std::os::unix::net::UnixStream;
use std::test::Fail;

#[test]
fn a_peer_that_closes_in_mid_frame_is_the_end(rt: HostRuntime) -> Result<(), Fail> {
    let alloc = rt.alloc();
    let (here, there) = UnixStream::pair(&rt)?;
    let mut link = UnixLink::of(alloc, here)?;
    let mut other = UnixLink::of(alloc, there)?;
    write_whole(&mut other, b"ten bytes ")?;
    other.finish()?;
    drop(other);
    let mut into = [0u8; 16];
    for wanted in [Ok(10), Ok(0)] {
        assert_eq!(rt; link.read(&mut into), wanted);
    }
    Ok(())
}

#[test]
fn a_write_to_a_peer_that_is_gone_is_a_fault(rt: HostRuntime) -> Result<(), Fail> {
    let (here, there) = UnixStream::pair(&rt)?;
    let mut link = UnixLink::of(rt.alloc(), here)?;
    drop(there);
    let mut into = [0u8; 16];
    assert_eq!(rt; link.write(b"lost"), Ok(4));
    for wanted in [Err(Failed), Ok(0)] {
        assert_eq!(rt; link.read(&mut into), wanted);
    }
    assert_eq!(rt; link.write(b"lost"), Ok(4));
    assert_eq!(rt; link.finish(), Err(Failed));
    Ok(())
}
