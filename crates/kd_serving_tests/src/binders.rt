//! Binders in memory.

ghost use Rattle.std.specs.Prelude.{◌≡◌, ◌+◌, ◌<◌, IfOk, OnOk};

use crate::serving::serve_on;
use crate::stock::{give_link_back, link_with, listener_of};
use kd_outside::{Binder, Clock, Failed, ListBinder, ListClock, ListListener};
use kd_types::{Moment, SessionEnd};
use std::alloc::{AllocError, Global};
use std::sync::Wait;
use std::test::Fail;

/// A binder of these two listeners, with one clock, which fails at its first call.
fn binder_of(
    alloc: Global,
    first: ListListener,
    second: ListListener,
) -> Result<ListBinder, AllocError>
    ensures none_gone { IfOk result (λ b. b.gave ≡ 0) }
    ensures none_back { IfOk result (λ b. b.returned ≡ 0) }
{
    let clock = ListClock::make(Vec::new(alloc), vec![in alloc; 1u64]?);
    let listeners = vec![in alloc; first, second]?;
    Ok(ListBinder::make(listeners, vec![in alloc; clock]?, Vec::new(alloc)))
}

/// A listener that was bound.
fn listener_on(binder: &mut ListBinder, path: &str) -> Result<ListListener, Failed>
    ensures gave { OnOk result (binder.new.gave ≡ binder.old.gave + 1) }
    ensures returned { binder.new.returned ≡ binder.old.returned }
{
    binder.bind(path)
}

/// The next clock.
fn clock_of(binder: &mut ListBinder) -> ListClock
    ensures gave { binder.new.gave ≡ binder.old.gave }
    ensures returned { binder.new.returned ≡ binder.old.returned }
{
    binder.clock()
}

/// Gives a listener and a clock back.
fn give_back(binder: &mut ListBinder, listener: ListListener, clock: ListClock)
    requires { binder.old.returned < binder.old.gave }
    ensures gave { binder.new.gave ≡ binder.old.gave }
    ensures returned { binder.new.returned ≡ binder.old.returned + 1 }
{
    binder.back(listener, clock);
}

/// A listener to which its one link has come back.
fn served_listener<R: Wait>(alloc: Global, rt: &R) -> Result<ListListener, Fail> {
    let mut listener = listener_of(alloc, 1, Vec::new(alloc))?;
    let link = link_with(&mut listener, rt, b"")?;
    give_link_back(&mut listener, link, SessionEnd::Spent);
    Ok(listener)
}

/// Whether a listener was bound, which is dropped then.
fn binds(binder: &mut ListBinder) -> bool {
    binder.bind("any").is_ok()
}

/// What a clock tells.
fn told(clock: &mut ListClock) -> Result<Moment, Failed> {
    clock.now()
}

#[test]
fn binds_fail_by_number_and_past_the_end(rt: HostRuntime) -> Result<(), Fail> {
    let alloc = rt.alloc();
    let listeners = vec![in alloc; listener_of(alloc, 0, Vec::new(alloc))?]?;
    let mut binder = ListBinder::make(listeners, Vec::new(alloc), vec![in alloc; 1u64]?);
    for wanted in [false, true, false, false] {
        assert_eq!(rt; binds(&mut binder), wanted);
    }
    assert!(rt; binder.ended().is_empty());
    Ok(())
}

#[test]
fn listeners_come_back_in_another_order(rt: HostRuntime) -> Result<(), Fail> {
    let alloc = rt.alloc();
    let unused = listener_of(alloc, 0, Vec::new(alloc))?;
    let mut binder = binder_of(alloc, unused, served_listener(alloc, &rt)?)?;
    let first = listener_on(&mut binder, "/run/a")?;
    let clock = clock_of(&mut binder);
    let second = listener_on(&mut binder, "/run/a")?;
    let spare = clock_of(&mut binder);
    give_back(&mut binder, second, spare);
    give_back(&mut binder, first, clock);
    let [second, first] = binder.ended() else {
        return Err("not two listeners")?;
    };
    assert_eq!(rt; second.ended().len(), 1);
    assert!(rt; first.ended().is_empty());
    Ok(())
}

#[test]
fn clocks_come_back_but_for_spare_ones(rt: HostRuntime) -> Result<(), Fail> {
    let alloc = rt.alloc();
    let unused = listener_of(alloc, 0, Vec::new(alloc))?;
    let mut binder = binder_of(alloc, unused, listener_of(alloc, 0, Vec::new(alloc))?)?;
    let first = listener_on(&mut binder, "a")?;
    let second = listener_on(&mut binder, "b")?;
    let mut clock = clock_of(&mut binder);
    let mut spare = clock_of(&mut binder);
    assert_eq!(rt; told(&mut clock), Err(Failed));
    assert_eq!(rt; told(&mut spare), Ok(Moment(0)));
    give_back(&mut binder, second, spare);
    assert!(rt; binder.clocks().is_empty());
    give_back(&mut binder, first, clock);
    assert_eq!(rt; binder.clocks().len(), 1);
    Ok(())
}

#[test]
fn any_binder_serves_two_links_at_once(rt: HostRuntime) -> Result<(), Fail> {
    let alloc = rt.alloc();
    let (two, one) = (
        listener_of(alloc, 2, Vec::new(alloc))?,
        listener_of(alloc, 1, Vec::new(alloc))?,
    );
    let mut binder = binder_of(alloc, two, one)?;
    assert_eq!(rt; serve_on(&mut binder, &rt, "two"), Ok(()));
    assert_eq!(rt; serve_on(&mut binder, &rt, "one"), Err(Failed));
    let [two, one] = binder.ended() else {
        return Err("not two listeners")?;
    };
    assert_eq!(rt; two.ended().len(), 2);
    assert_eq!(rt; one.ended().len(), 1);
    Ok(())
}
