//! The linked order of receives: a worked case, and 10,000 turns beside the plain one.

ghost use Rattle.std.specs.Prelude.{◌≡◌, ◌<◌};
ghost use Rattle.kd_model.specs.Words.{some_of};
ghost use Rattle.kd_queue.specs.Order.{is_entry_of};
ghost use Rattle.kd_model.specs.declared.slice_no.TheConstants.{SLICES};

use crate::draws::Draws;
use kd_model::SliceNo;
use std::test::Fail;

#[test]
fn the_least_priority_comes_first_and_of_equals_the_oldest(rt: HostRuntime) -> Result<(), Fail> {
    let mut queue = kd_order::Queue::make(rt.alloc())?;
    queue.push(SliceNo(0), 5);
    queue.push(SliceNo(1), -1);
    queue.push(SliceNo(2), -1);
    assert_eq!(rt; queue.next(Some(-2)), None);
    assert_eq!(rt; queue.next(None), Some(SliceNo(0)));
    assert_eq!(rt; queue.next(Some(5)), Some(SliceNo(1)));
    queue.take(SliceNo(1));
    assert_eq!(rt; queue.next(Some(5)), Some(SliceNo(2)));
    queue.clear();
    assert!(rt; queue.is_empty());
    Ok(())
}

/// Lets a slice wait in both, unless it waits already.
#[tactic(auto, using(crate::proofs::Numbers::has_if))]
fn push(plain: &mut kd_queue::Queue, linked: &mut kd_order::Queue, number: SliceNo, priority: i64)
    requires below { number < SLICES }
    requires same { linked.old ≡ plain.old }
    ensures same { linked.new ≡ plain.new }
{
    if waits(plain, number) {
        return;
    }
    plain.push(number, priority);
    linked.push(number, priority);
}

/// Whether a slice waits.
fn waits(plain: &kd_queue::Queue, number: SliceNo) -> bool
    ensures { result ≡ some_of (is_entry_of number) plain.now }
{
    plain.entries().iter().any(|entry| entry.number == number)
}

/// Takes the next slice out of both, and tells whether both answered alike.
fn take_next(plain: &mut kd_queue::Queue, linked: &mut kd_order::Queue, limit: Option<i64>) -> bool
    requires same { linked.old ≡ plain.old }
    ensures same { linked.new ≡ plain.new }
{
    let next = linked.next(limit);
    let alike = plain.next(limit) == next;
    if let Some(number) = next {
        linked.take(number);
        plain.take(number);
    }
    alike
}

#[test]
fn both_queues_answer_alike_at_ten_thousand_turns(rt: HostRuntime) -> Result<(), Fail> {
    let mut linked = kd_order::Queue::make(rt.alloc())?;
    let mut plain = kd_queue::Queue::make(rt.alloc())?;
    let mut draws = Draws::from_state(1);
    'turns: for _ in 0..10_000 {
        let which = draws.draw() % 8;
        let number = SliceNo((draws.draw() % 256) as u32);
        let priority = (draws.draw() % 8) as i64 - 4;
        if which < 5 {
            push(&mut plain, &mut linked, number, priority);
        }
        if which == 5 {
            assert!(rt; take_next(&mut plain, &mut linked, None));
        }
        if which > 5 {
            assert!(rt; take_next(&mut plain, &mut linked, Some(priority)));
        }
        assert_eq!(rt; linked.is_empty(), plain.is_empty());
    }
    Ok(())
}
