//! Clocks in memory.

use kd_outside::{Clock, Failed, ListClock};
use kd_types::Moment;
use std::test::Fail;

#[test]
fn a_clock_tells_its_moments_and_then_the_last(rt: HostRuntime) -> Result<(), Fail> {
    let alloc = rt.alloc();
    let moments = vec![in alloc; Moment(5), Moment(5), Moment(9)]?;
    let mut clock = ListClock::make(moments, vec![in alloc; 2u64]?);
    for wanted in [Ok(5), Err(Failed), Ok(5), Ok(9), Ok(9)] {
        assert_eq!(rt; clock.now().map(|m| m.0), wanted);
    }
    Ok(())
}

#[test]
fn a_clock_without_moments_tells_0(rt: HostRuntime) -> Result<(), Fail> {
    let alloc = rt.alloc();
    let mut clock = ListClock::make(Vec::new(alloc), vec![in alloc; 3u64]?);
    for wanted in [Ok(0), Ok(0), Err(Failed), Ok(0)] {
        assert_eq!(rt; clock.now().map(|m| m.0), wanted);
    }
    Ok(())
}
