//! Jobs in turn and in threads.

ghost use Rattle.std.specs.Prelude.{◌≤◌, IfOk};

use kd_outside::{Failed, InTurn, Job, Meet, NoMeet, OsThreads, Spawner, start_thread};
use std::sync::Wait;
use std::test::Fail;
use std::thread::Threads;

/// A job that counts how often it was done.
#[derive(Drop)]
struct Count {
    times: u64,
}

impl Job for Count {
    ghost works = { λ before after. before.times ≤ after.times };

    fn work<R: Wait>(&mut self, rt: &R)
        ensures { self.old.times ≤ self.new.times }
    {
        NoMeet.before(rt, 0, self.times);
        self.times = self.times.saturating_add(1);
        NoMeet.after(rt, 0, self.times);
    }
}

/// A job that finds the greater of two numbers.
#[derive(Drop)]
struct Greater {
    first: u64,
    second: u64,
    found: u64,
}

impl Job for Greater {
    ghost works = { λ before after. (before.first ≤ after.found) × (before.second ≤ after.found) };

    fn work<R: Wait>(&mut self, _rt: &R)
        ensures { (self.old.first ≤ self.new.found) × (self.old.second ≤ self.new.found) }
    {
        self.found = self.first.max(self.second);
    }
}

/// Starts two jobs beside each other and waits for both.
fn both<J: Job + Drop, P: Spawner<J>, R: Threads + Wait>(
    rt: &R,
    spawner: &mut P,
    first: J,
    second: J,
) -> Result<(J, J), Failed>
where
    P::Run: Drop,
    requires { P.can_start spawner.old }
    ensures can_start { P.can_start spawner.new }
    ensures first { IfOk result (λ jobs. J.works first jobs.0) }
    ensures second { IfOk result (λ jobs. J.works second jobs.1) }
{
    let first = spawner.start(rt, first)?;
    let second = spawner.start(rt, second)?;
    let second = spawner.wait(rt, second);
    Ok((spawner.wait(rt, first), second))
}

fn counts() -> (Count, Count) {
    (Count { times: 3 }, Count { times: 7 })
}

fn pairs() -> (Greater, Greater) {
    let first = Greater {
        first: 5,
        second: 9,
        found: 0,
    };
    let second = Greater {
        first: 8,
        second: 2,
        found: 0,
    };
    (first, second)
}

#[test]
fn jobs_of_two_kinds_are_done_in_turn(rt: HostRuntime) -> Result<(), Fail> {
    let mut spawner = InTurn::make(Vec::new(rt.alloc()));
    let (first, second) = counts();
    let (first, second) = both(&rt, &mut spawner, first, second)?;
    assert_eq!(rt; (first.times, second.times), (4, 8));
    let (first, second) = pairs();
    let (first, second) = both(&rt, &mut spawner, first, second)?;
    assert_eq!(rt; (first.found, second.found), (9, 8));
    Ok(())
}

#[test]
fn jobs_of_two_kinds_are_done_in_threads(rt: HostRuntime) -> Result<(), Fail> {
    let mut spawner = OsThreads::make(|job: Count| start_thread(&rt, rt, job));
    let (first, second) = counts();
    let (first, second) = both(&rt, &mut spawner, first, second)?;
    assert_eq!(rt; (first.times, second.times), (4, 8));
    let mut spawner = OsThreads::make(|job: Greater| start_thread(&rt, rt, job));
    let (first, second) = pairs();
    let (first, second) = both(&rt, &mut spawner, first, second)?;
    assert_eq!(rt; (first.found, second.found), (9, 8));
    Ok(())
}

#[test]
fn a_job_in_turn_is_done_once_where_it_is_started(rt: HostRuntime) -> Result<(), Fail> {
    let alloc = rt.alloc();
    let mut spawner = InTurn::make(vec![in alloc; 2u64]?);
    let first = spawner.start(&rt, Count { times: 3 })?;
    assert!(rt; spawner.start(&rt, Count { times: 0 }).is_err());
    let second = spawner.start(&rt, Count { times: 7 })?;
    assert_eq!(rt; spawner.wait(&rt, second).times, 8);
    assert_eq!(rt; spawner.wait(&rt, first).times, 4);
    Ok(())
}
