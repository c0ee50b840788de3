//! What runs jobs: one after the other where they are started, or each in a thread of the system.

ghost use Rattle.std.specs.Prelude.{◌≡◌, ◌↔◌, ⊤, if◌then◌else◌, IsTrue, IsErr, IfOk};
ghost use Rattle.kd_outside.specs.Causes.{HasCause};
ghost use Rattle.kd_outside.specs.Memory.{Calls as CallsValue, no_calls, fails_next, with_call, with_fault};

use crate::calls::Calls;
use crate::traits::Failed;
use crate::work::{Job, Spawner};
use std::marker::{Model, PhantomData};
use std::snapshot::Snapshot;
use std::sync::Wait;
use std::thread;
use std::thread::{Promise, PromisedHandle, Threads};

/// A spawner that does a job's work where it is started.
#[derive(Debug, Drop)]
pub struct InTurn {
    calls: Calls,
}

impl Model for InTurn {
    ghost Value = { CallsValue };

    ghost view = { λ s. s.calls };
}

impl InTurn {
    /// A spawner whose starts of the numbers in `fails` fail, counted from 1. It takes no memory.
    pub fn make(fails: Vec<u64>) -> InTurn
        ensures { result ≡ no_calls fails.items }
    {
        InTurn {
            calls: Calls::of(fails),
        }
    }
}

/// A job that was done, and what it was when it was started.
#[derive(Drop)]
pub struct Finished<J: Job> {
    begun: Snapshot<J>,
    job: J,
}

impl<J: Job> Model for Finished<J> {
    ghost Value = { J × J };

    ghost view = { λ f. (f.begun.value, f.job) };

    ghost invariant = { λ f. J.works f.begun.value f.job };
}

impl<J: Job + Drop> Spawner<J> for InTurn {
    type Run = Finished<J>;

    ghost faults = { λ s. s.faults };

    ghost started = { λ run. run.0 };

    ghost can_start = { λ _. ⊤ };

    /// Does the work once; fails at the calls that were named, and at no other.
    fn start<R: Threads + Wait>(&mut self, rt: &R, job: J) -> Result<Finished<J>, Failed>
        ensures cause { HasCause self.old.faults self.new.faults result }
        ensures started { IfOk result (λ run. run.0 ≡ job) }
        ensures worked { IfOk result (λ run. J.works job run.1) }
        ensures failing { IsErr result ↔ IsTrue (fails_next self.old) }
        ensures after { self.new
            ≡ (if fails_next self.old then with_fault self.old else with_call self.old) }
    {
        if self.calls.fails_next() {
            self.calls.count_fault();
            return Err(Failed);
        }
        self.calls.count();
        let begun = Snapshot::of(&job);
        Ok(Finished {
            begun,
            job: done(job, rt),
        })
    }

    /// The job, which was done before.
    fn wait<R: Threads + Wait>(&mut self, _rt: &R, run: Finished<J>) -> J
        ensures worked { J.works run.0 result }
        ensures faults { self.new.faults ≡ self.old.faults }
        ensures job { result ≡ run.1 }
        ensures kept { self.new ≡ self.old }
    {
        let Finished { begun: _, job } = run;
        job
    }
}

/// What a thread promises of a job: that it was done.
#[derive(Drop)]
pub struct Work<J>(Snapshot<J>);

impl<J: Job> Promise<J> for Work<J> {
    ghost kept_by = { λ p job. J.works p.0.value job };
}

/// The job after its work.
fn done<J: Job, H: Wait>(job: J, handle: &H) -> J
    ensures { J.works job result }
{
    let mut job = job;
    job.work(handle);
    job
}

/// A job that a thread of its own does. A contract sees it as it was when it was started.
#[derive(Drop)]
pub struct Started<J: Job> {
    run: PromisedHandle<J, Work<J>>,
}

impl<J: Job> Model for Started<J> {
    ghost Value = { J };

    ghost view = { λ s. s.run.promise.0.value };
}

/// What waits for a job that was started.
pub trait Join<J: Job> {
    /// The job as it was when it was started.
    ghost begun: { Self → J };

    /// The job after its work. It waits until the work is done.
    fn join<R: Threads>(self, rt: &R) -> J
        ensures worked { J.works (begun self) result };
}

impl<J: Job> Join<J> for Started<J> {
    ghost begun = { λ s. s };

    fn join<R: Threads>(self, rt: &R) -> J
        ensures worked { J.works self result }
    {
        let Started { run } = self;
        run.join(rt)
    }
}

/// A thread that does the job's work and waits by this handle, if the system gives one.
pub fn start_thread<J: Job + Drop + Send + 'static, H: Wait + Copy + Send + 'static, R: Threads>(
    rt: &R,
    handle: H,
    job: J,
) -> Result<Started<J>, Failed>
    ensures { IfOk result (λ run. run ≡ job) }
{
    let promise = Work(Snapshot::of(&job));
    match thread::spawn_with(rt, promise, move || done(job, &handle)) {
        Ok(run) => Ok(Started { run }),
        Err(_) => Err(Failed),
    }
}

/// What starts a thread of the system for each job, by the closure that it was made of. A contract
/// sees that closure and how often it has failed.
///
/// The closure is written where it is known that the job may go to a thread, which an impl for any
/// job can't say: `OsThreads::make(|job: Task| start_thread(&rt, rt, job))`.
#[derive(Drop)]
pub struct OsThreads<F, T> {
    launch: F,
    faults: u64,
    thread: PhantomData<T>,
}

impl<F, T> OsThreads<F, T> {
    /// It started nothing yet.
    pub fn make(launch: F) -> OsThreads<F, T>
        ensures launch { result.launch ≡ launch }
        ensures faults { result.faults ≡ 0 }
    {
        OsThreads {
            launch,
            faults: 0,
            thread: PhantomData,
        }
    }
}

impl<J: Job, T: Join<J>, F: Fn(J) -> Result<T, Failed>> Spawner<J> for OsThreads<F, T> {
    type Run = T;

    ghost faults = { λ s. s.faults };

    ghost started = { λ run. T.begun run };

    ghost can_start = { λ s. ((j : J) → F.pre s.launch j)
        × ((j : J) (r : _) → F.post s.launch j r → IfOk r (λ run. T.begun run ≡ j)) };

    /// Starts a thread that does the work; fails where the system gives none.
    fn start<R: Threads + Wait>(&mut self, _rt: &R, job: J) -> Result<T, Failed>
        requires { ((j : J) → F.pre self.old.launch j)
            × ((j : J) (r : _) → F.post self.old.launch j r → IfOk r (λ run. T.begun run ≡ j)) }
        ensures cause { HasCause self.old.faults self.new.faults result }
        ensures launch { self.new.launch ≡ self.old.launch }
        ensures started { IfOk result (λ run. T.begun run ≡ job) }
    {
        let Ok(run) = (self.launch)(job) else {
            self.faults = self.faults.saturating_add(1);
            return Err(Failed);
        };
        Ok(run)
    }

    /// Joins the thread.
    fn wait<R: Threads + Wait>(&mut self, rt: &R, run: T) -> J
        ensures worked { J.works (T.begun run) result }
        ensures kept { self.new ≡ self.old }
    {
        run.join(rt)
    }
}
