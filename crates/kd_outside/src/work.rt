//! What a service's work is done by: jobs, what runs them beside their caller, and what two of
//! them may meet at.

ghost use Rattle.std.specs.Prelude.{◌≡◌, ℕ, IfOk};
ghost use Rattle.kd_outside.specs.Causes.{HasCause};

use crate::traits::Failed;
use std::sync::Wait;
use std::thread::Threads;

/// What a worker does.
pub trait Job {
    /// What its work promises of the job before and after.
    ghost works: { Self → Self → Type 0 };

    /// Does the work. It may wait.
    fn work<R: Wait>(&mut self, rt: &R)
        ensures { works self.old self.new };
}

/// What runs jobs beside its caller.
pub trait Spawner<J: Job> {
    /// A job that was started.
    type Run;

    /// How often a job couldn't be started.
    ghost faults: { Self → ℕ };

    /// The job as it was when it was started.
    ghost started: { Self.Run → J };

    /// What it takes to start any job. Each call keeps it.
    ghost can_start: { Self → Type 0 };

    /// Runs the job beside the caller. Where it fails, the job is dropped.
    fn start<R: Threads + Wait>(&mut self, rt: &R, job: J) -> Result<Self::Run, Failed>
        requires { can_start self.old }
        ensures can_start { can_start self.new }
        ensures cause { HasCause (faults self.old) (faults self.new) result }
        ensures started { IfOk result (λ run. started run ≡ job) };

    /// The job after its work. It waits until the work is done.
    fn wait<R: Threads + Wait>(&mut self, rt: &R, run: Self::Run) -> J
        ensures can_start { can_start self.old → can_start self.new }
        ensures worked { J.works (started run) result }
        ensures faults { faults self.new ≡ faults self.old };
}

/// Where the sessions of two workers may be made to meet, in tests that need both at once.
pub trait Meet {
    /// Comes before each session of a worker, both counted from 0.
    fn before<R: Wait>(&self, rt: &R, worker: u32, session: u64);

    /// Comes after each session of a worker.
    fn after<R: Wait>(&self, rt: &R, worker: u32, session: u64);
}

/// Where nobody meets: both calls return at once.
#[derive(Clone, Copy, Debug)]
pub struct NoMeet;

impl Meet for NoMeet {
    fn before<R: Wait>(&self, _rt: &R, _worker: u32, _session: u64) {}

    fn after<R: Wait>(&self, _rt: &R, _worker: u32, _session: u64) {}
}
