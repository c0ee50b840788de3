//! Passes in threads, and what closing gives.
use crate::bus::{join, leave, open, receive, release, send};
use crate::locked::{Locked, Pool};
use crate::passes::{two_of, values_of};
use crate::run::run;
use crate::{count, twice};
use std::test::Fail;

#[test]
fn a_turn_by_each_of_two_passes(rt: HostRuntime) -> Result<(), Fail> {
    let (gate, passes) = count::make(rt.alloc(), 2, 2)?;
    let passes = count::rounds_of_all(&rt, &gate, passes, 0, 1)?;
    let values = values_of(rt.alloc(), gate, passes)?;
    assert_eq!(rt; values.len(), 2);
    assert_eq!(rt; values[0].turns, 2);
    assert_eq!(rt; values[1].turns, 0);
    Ok(())
}

#[test]
fn four_passes_on_two_of_many_locks(rt: HostRuntime) -> Result<(), Fail> {
    let (gate, passes) = count::make(rt.alloc(), 65, 4)?;
    let passes = count::rounds_of_all(&rt, &gate, passes, 64, 500)?;
    let values = values_of(rt.alloc(), gate, passes)?;
    assert_eq!(rt; values.len(), 65);
    for lock in 0..65usize {
        let turns = if lock == 0 || lock == 64 { 2000 } else { 0 };
        assert_eq!(rt; values[lock].turns, turns, "of lock {lock}");
    }
    Ok(())
}

#[test]
fn four_passes_on_tied_locks(rt: HostRuntime) -> Result<(), Fail> {
    let (gate, passes) = twice::make(rt.alloc(), 4)?;
    let passes = twice::rounds_of_all(&rt, &gate, passes, 500)?;
    let values = values_of(rt.alloc(), gate, passes)?;
    assert_eq!(rt; values.len(), 2);
    assert_eq!(rt; values[0].turns, 2000);
    assert_eq!(rt; values[1].turns, 4000);
    Ok(())
}

#[test]
fn a_mark_is_swept_once(rt: HostRuntime) -> Result<(), Fail> {
    let (first, second) = count::swept_twice(&rt, rt.alloc(), 3)?;
    assert_eq!(rt; first, [8, 0, 0, 0]);
    assert_eq!(rt; second, [0, 0, 0, 0]);
    let (first, second) = count::swept_twice(&rt, rt.alloc(), 200)?;
    assert_eq!(rt; first, [0, 0, 0, 256]);
    assert_eq!(rt; second, [0, 0, 0, 0]);
    Ok(())
}

#[test]
fn two_threads_on_the_bus(rt: HostRuntime) -> Result<(), Fail> {
    let values = run(&rt, rt.alloc(), 1000)?.ok_or("the seat was taken")?;
    assert_eq!(rt; values.len(), 4);
    let Locked::Desk(desk) = &values[0] else {
        return Err("no desk")?;
    };
    assert_eq!(rt; desk.taken, [false, false, false]);
    for lock in 1..4usize {
        assert!(rt;
            matches!(&values[lock], Locked::Pool(Pool::Closed)),
            "of lock {lock}"
        );
    }
    Ok(())
}

#[test]
fn a_slice_comes_again_after_its_mark_was_swept(rt: HostRuntime) -> Result<(), Fail> {
    let (gate, passes) = open(rt.alloc(), 2)?;
    let (mut member, mut sender) = two_of(&gate, passes);
    assert!(rt; !send(&rt, &gate, &mut sender, 0), "nobody has the seat");
    assert!(rt; join(&rt, &gate, &mut member, 0));
    assert!(rt;
        !join(&rt, &gate, &mut sender, 0),
        "the member has the seat"
    );
    assert!(rt; send(&rt, &gate, &mut sender, 0));
    assert!(rt; receive(&rt, &gate, &mut member, 0));
    assert!(rt; send(&rt, &gate, &mut sender, 0));
    assert!(rt;
        !receive(&rt, &gate, &mut member, 0),
        "its slice is in the hand"
    );
    release(&gate, &mut member, 0);
    assert!(rt; send(&rt, &gate, &mut sender, 0));
    assert!(rt; receive(&rt, &gate, &mut member, 0), "the mark was swept");
    leave(&rt, &gate, &mut member, 0);
    Ok(())
}
