//! What a service stands on: clocks, listeners that accept links, and binders that give both.

ghost use Rattle.std.specs.Prelude.{◌≡◌, ◌<◌, ◌≤◌, ℕ, List, Bool, IfOk, OnErr};
ghost use Rattle.kd_outside.specs.Causes.{HasCause};
ghost use Rattle.kd_outside.specs.Told.{ClockState, ListenerState, BinderState, Tells, Accepts, Binds, Lends, with_served, with_bound};

use crate::traits::{Failed, Link};
use kd_types::{Moment, SessionEnd};
use std::sync::Wait;

/// What tells the moments of a service.
pub trait Clock {
    /// All that is told of the clock.
    ghost told: { Self → ClockState };

    /// Whether its binder gave it where no clock was to come.
    ghost is_spare: { Self → Bool };

    /// A moment not below the last one. Of moments that are known it is the first, which goes from
    /// them unless it is the last; where there is none it is 0.
    fn now(&mut self) -> Result<Moment, Failed>
        ensures cause { HasCause (told self.old).faults (told self.new).faults result }
        ensures told { IfOk result (λ m. Tells (told self.old) (told self.new) m) }
        ensures failed { OnErr result
            (told self.new ≡ record (told self.old) { faults = (told self.new).faults }) }
        ensures kept { is_spare self.new ≡ is_spare self.old };
}

/// What accepts links on a path, and takes them back.
pub trait Listener {
    /// The links.
    type L: Link;

    /// All that is told of the listener, but for its path.
    ghost told: { Self → ListenerState };

    /// The path on which it was bound.
    ghost path: { Self → List ℕ };

    /// The next link. It may wait for one.
    fn accept<R: Wait>(&mut self, rt: &R) -> Result<Self::L, Failed>
        ensures cause { HasCause (told self.old).faults (told self.new).faults result }
        ensures given { IfOk result
            (λ link. Accepts (told self.old) (told self.new) (Self.L.told link)) }
        ensures failed { OnErr result
            (told self.new ≡ record (told self.old) { faults = (told self.new).faults }) }
        ensures path { path self.new ≡ path self.old };

    /// Takes back a link that was served, with its session's end.
    fn done(&mut self, link: Self::L, end: SessionEnd)
        requires { (told self.old).returned < (told self.old).gave }
        ensures back { told self.new ≡ with_served (Self.L.told link) end (told self.old) }
        ensures path { path self.new ≡ path self.old };
}

/// What binds listeners to paths, and takes back what its workers had.
pub trait Binder {
    /// The listeners.
    type N: Listener;

    /// The clocks.
    type C: Clock;

    /// All that is told of the binder.
    ghost told: { Self → BinderState };

    /// A listener on the path. No more links have come back to it than it gave.
    fn bind(&mut self, path: &str) -> Result<Self::N, Failed>
        ensures cause { HasCause (told self.old).faults (told self.new).faults result }
        ensures given { IfOk result (λ n. Binds (told self.old) (told self.new) (Self.N.told n)) }
        ensures path { IfOk result (λ n. Self.N.path n ≡ path.now) }
        ensures counted { IfOk result (λ n. (Self.N.told n).returned ≤ (Self.N.told n).gave) }
        ensures failed { OnErr result
            (told self.new ≡ record (told self.old) { faults = (told self.new).faults }) };

    /// A clock. No listener is given or comes back with it.
    fn clock(&mut self) -> Self::C
        ensures given { Lends (told self.old) (told self.new) (Self.C.told result)
            (Self.C.is_spare result) }
        ensures gave { (told self.new).gave ≡ (told self.old).gave }
        ensures returned { (told self.new).returned ≡ (told self.old).returned };

    /// Takes back the listener and the clock of a worker that has ended. A spare clock is dropped.
    fn back(&mut self, listener: Self::N, clock: Self::C)
        requires { (told self.old).returned < (told self.old).gave }
        ensures { told self.new
            ≡ with_bound
            (record { path = Self.N.path listener; listener = Self.N.told listener })
            (Self.C.told clock) (Self.C.is_spare clock) (told self.old) };
}
