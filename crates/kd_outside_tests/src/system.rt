//! A file as a source, and the system's clock.

use kd_outside::{Clock, Failed, FileSource, Source, SysClock, read_to_end};
use std::fs;
use std::test::Fail;

#[test]
fn a_file_is_read_to_its_end(rt: HostRuntime) -> Result<(), Fail> {
    let alloc = rt.alloc();
    let content = vec![in alloc; 7u8; 40_000]?;
    fs::write(&rt, "content", content.as_slice())?;
    let mut source = FileSource::of(&rt, "content");
    let bytes = read_to_end(alloc, &mut source, 40_000)?;
    assert_eq!(rt; bytes.as_slice(), content.as_slice());
    Ok(())
}

#[test]
fn the_first_read_of_no_file_fails(rt: HostRuntime) -> Result<(), Fail> {
    let mut into = [0u8; 8];
    for path in ["absent", "."] {
        let mut source = FileSource::of(&rt, path);
        assert_eq!(rt; source.read(&mut into), Err(Failed), "{path}");
        assert_eq!(rt; source.read(&mut into), Err(Failed), "{path}");
    }
    Ok(())
}

#[test]
fn the_clock_of_the_system_doesn_t_go_back(rt: HostRuntime) -> Result<(), Fail> {
    let mut clock = SysClock::make(rt);
    let first = clock.now()?;
    let second = clock.now()?;
    assert!(rt; 0 < first.0 && first.0 <= second.0);
    Ok(())
}
