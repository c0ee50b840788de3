//! Listeners in memory.

use crate::stock::{give_link_back, link_with, listener_of};
use kd_outside::{ListListener, Listener};
use kd_types::SessionEnd;
use std::sync::Wait;
use std::test::Fail;

/// Whether a link was accepted, which is dropped then.
fn accepts<R: Wait>(listener: &mut ListListener, rt: &R) -> bool {
    listener.accept(rt).is_ok()
}

#[test]
fn accepts_fail_by_number_and_past_the_end(rt: HostRuntime) -> Result<(), Fail> {
    let alloc = rt.alloc();
    let mut listener = listener_of(alloc, 2, vec![in alloc; 2u64]?)?;
    for wanted in [true, false, true, false, false] {
        assert_eq!(rt; accepts(&mut listener, &rt), wanted);
    }
    assert!(rt; listener.ended().is_empty());
    Ok(())
}

#[test]
fn links_come_back_in_another_order(rt: HostRuntime) -> Result<(), Fail> {
    let alloc = rt.alloc();
    let mut listener = listener_of(alloc, 3, Vec::new(alloc))?;
    let first = link_with(&mut listener, &rt, b"1")?;
    let second = link_with(&mut listener, &rt, b"22")?;
    give_link_back(&mut listener, second, SessionEnd::BadFrame { at: 8 });
    give_link_back(&mut listener, first, SessionEnd::Ended);
    let [second, first] = listener.ended() else {
        return Err("not two links")?;
    };
    assert_eq!(rt; second.held(), b"22".as_slice());
    assert_eq!(rt; second.end(), Some(SessionEnd::BadFrame { at: 8 }));
    assert_eq!(rt; first.held(), b"1".as_slice());
    assert_eq!(rt; first.end(), Some(SessionEnd::Ended));
    assert!(rt; accepts(&mut listener, &rt));
    Ok(())
}
