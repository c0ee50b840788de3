//! Paths at which sockets are bound. Each test has a path of its own, and leaves nothing there.

use kd_outside::{Binder, Link, Listener, Source, UnixBinder, UnixLink, write_whole};
use std::fs;
use std::os::unix::fs::PermissionsExt;
use std::os::unix::net::{UnixListener, UnixStream};
use std::test::Fail;

#[test]
fn a_bound_path_is_its_owner_s_alone(rt: HostRuntime) -> Result<(), Fail> {
    let _listener = UnixBinder::make(rt).bind("owned")?;
    let mode = fs::metadata(&rt, "owned")?.permissions().mode();
    fs::remove_file(&rt, "owned")?;
    assert_eq!(rt; mode & 0o777, 0o600);
    Ok(())
}

#[test]
fn a_peer_that_connects_is_accepted(rt: HostRuntime) -> Result<(), Fail> {
    let mut listener = UnixBinder::make(rt).bind("accepting")?;
    let mut peer = UnixLink::of(rt.alloc(), UnixStream::connect(&rt, "accepting")?)?;
    fs::remove_file(&rt, "accepting")?;
    let mut link = listener.accept(&rt)?;
    write_whole(&mut link, b"hello")?;
    link.finish()?;
    let mut into = [0u8; 16];
    assert_eq!(rt; peer.read(&mut into), Ok(5));
    Ok(())
}

#[test]
fn a_path_is_bound_once_and_taken_away_at_the_end(rt: HostRuntime) -> Result<(), Fail> {
    let mut binder = UnixBinder::make(rt);
    let listener = binder.bind("in_use")?;
    assert!(rt; UnixBinder::make(rt).bind("in_use").is_err());
    assert!(rt; fs::exists(&rt, "in_use")?);
    let clock = binder.clock();
    binder.back(listener, clock);
    assert!(rt; !fs::exists(&rt, "in_use")?);
    Ok(())
}

#[test]
fn a_path_that_is_left_over_is_taken_over(rt: HostRuntime) -> Result<(), Fail> {
    drop(UnixListener::bind(&rt, "left_over")?);
    assert!(rt; fs::exists(&rt, "left_over")?);
    assert!(rt; UnixBinder::make(rt).bind("left_over").is_ok());
    fs::remove_file(&rt, "left_over")?;
    Ok(())
}

#[test]
fn a_file_is_never_taken_over(rt: HostRuntime) -> Result<(), Fail> {
    fs::write(&rt, "file", "kept")?;
    assert!(rt; UnixBinder::make(rt).bind("file").is_err());
    fs::remove_file(&rt, "file")?;
    Ok(())
}
