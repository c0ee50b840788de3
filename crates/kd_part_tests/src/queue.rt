//! The order of receives: by priority and arrival, or by arrival alone.

use kd_queue::{Queue, SliceNo};
use std::test::Fail;

#[test]
fn the_least_priority_comes_first_and_of_equals_the_oldest(rt: HostRuntime) -> Result<(), Fail> {
    let mut queue = Queue::make(rt.alloc())?;
    queue.push(SliceNo(0), 5);
    queue.push(SliceNo(1), -1);
    queue.push(SliceNo(2), -1);
    assert_eq!(rt; queue.next(Some(-2)), None);
    assert_eq!(rt; queue.next(None), Some(SliceNo(0)));
    assert_eq!(rt; queue.next(Some(5)), Some(SliceNo(1)));
    queue.take(SliceNo(1));
    assert_eq!(rt; queue.next(Some(5)), Some(SliceNo(2)));
    queue.clear();
    assert!(rt; queue.is_empty());
    Ok(())
}
