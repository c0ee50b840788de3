//! A binder in memory, which gives the listeners and the clocks that it was made with.

ghost use Rattle.std.specs.Prelude.{◌≡◌, ◌≤◌, ◌<◌, ◌+◌, ◌↔◌, length, option_map, IsTrue, IsErr, IfOk, OnErr};
ghost use Rattle.std.specs.declared.option.Option.TheVariants.{Some};
ghost use Rattle.kd_outside.specs.Causes.{HasCause};
ghost use Rattle.kd_outside.specs.Told.{Binds, Lends, with_bound};
ghost use Rattle.kd_outside.specs.Racks.{next_of};
ghost use Rattle.kd_outside.specs.Serving.{BinderParts, new_binder, binder_state, listener_state, clock_state, bound, on_path, gives_no_listener, after_bind, clock_of, after_clock, clocks_with, after_back};

use crate::calls::Calls;
use crate::links::ListListener;
use crate::moments::ListClock;
use crate::rack::Rack;
use crate::service::Binder;
use crate::traits::Failed;
use std::marker::Model;

/// Listeners and clocks that are given in order, and those that came back, in the order in which
/// they did.
#[derive(Debug, Drop)]
pub struct ListBinder {
    listeners: Rack<ListListener>,
    gave: u64,
    returned: u64,
    clocks: Rack<ListClock>,
    calls: Calls,
}

impl Model for ListBinder {
    ghost Value = { BinderParts };

    ghost view = { λ b. record {
      listeners = b.listeners;
      gave = b.gave;
      returned = b.returned;
      clocks = b.clocks;
      calls = b.calls;
    } };

    ghost invariant = { λ b. (b.returned ≡ length b.listeners.back)
        × (b.gave ≡ b.returned + b.listeners.out) };
}

impl ListBinder {
    /// A binder that gives these listeners and clocks, and whose binds of the numbers in `fails`
    /// fail, counted from 1. It takes no memory: both come back into their own vectors.
    pub fn make(listeners: Vec<ListListener>, clocks: Vec<ListClock>, fails: Vec<u64>) -> ListBinder
        ensures { result ≡ new_binder listeners.items clocks.items fails.items }
    {
        ListBinder {
            listeners: Rack::of(listeners),
            gave: 0,
            returned: 0,
            clocks: Rack::of(clocks),
            calls: Calls::of(fails),
        }
    }

    /// The listeners that came back, in order.
    pub fn ended(&self) -> &[ListListener]
        ensures { result.now ≡ self.now.listeners.back }
    {
        self.listeners.ended()
    }

    /// The clocks that came back, in order.
    pub fn clocks(&self) -> &[ListClock]
        ensures { result.now ≡ self.now.clocks.back }
    {
        self.clocks.ended()
    }

    /// Whether the next bind fails.
    fn gives_none(&self) -> bool
        ensures { result ≡ gives_no_listener self.now }
    {
        if self.calls.fails_next() {
            return true;
        }
        self.listeners.is_over()
    }

    /// Keeps a clock that came back, unless it is a spare one.
    fn keep(&mut self, clock: ListClock)
        ensures { self.new ≡ record self.old { clocks = clocks_with clock self.old } }
    {
        if !clock.is_spare() && self.clocks.is_lent() {
            self.clocks.take_back(clock);
        }
    }
}

impl Binder for ListBinder {
    type N = ListListener;

    type C = ListClock;

    ghost told = { binder_state };

    /// Gives the next listener, whatever the path is; fails at the calls that were named and where
    /// no listener is to come, and at no other.
    fn bind(&mut self, path: &str) -> Result<ListListener, Failed>
        ensures cause { HasCause self.old.calls.faults self.new.calls.faults result }
        ensures given { IfOk result
            (λ n. Binds (binder_state self.old) (binder_state self.new) (listener_state n)) }
        ensures path { IfOk result (λ n. n.path ≡ path.now) }
        ensures counted { IfOk result (λ n. n.returned ≤ n.gave) }
        ensures failed { OnErr result
            (binder_state self.new
            ≡ record (binder_state self.old) { faults = (binder_state self.new).faults }) }
        ensures failing { IsErr result ↔ IsTrue (gives_no_listener self.old) }
        ensures listener { IfOk result
            (λ n. option_map (on_path path.now) (next_of self.old.listeners.coming) ≡ Some n) }
        ensures after { self.new ≡ after_bind self.old }
    {
        if self.gives_none() {
            self.calls.count_fault();
            return Err(Failed);
        }
        let listener = self.listeners.hand_out();
        self.gave += 1;
        self.calls.count();
        Ok(listener.on_path(path))
    }

    /// Gives the next clock, or a spare one, which has no moments.
    fn clock(&mut self) -> ListClock
        ensures given { Lends (binder_state self.old) (binder_state self.new)
            (clock_state result) result.spare }
        ensures gave { self.new.gave ≡ self.old.gave }
        ensures returned { self.new.returned ≡ self.old.returned }
        ensures clock { result ≡ clock_of self.old }
        ensures after { self.new ≡ after_clock self.old }
    {
        if self.clocks.is_over() {
            return ListClock::spare(self.clocks.alloc());
        }
        self.clocks.hand_out().into_own()
    }

    /// Keeps both behind those that came back before them, but for a spare clock.
    fn back(&mut self, listener: ListListener, clock: ListClock)
        requires { self.old.returned < self.old.gave }
        ensures back { binder_state self.new
            ≡ with_bound (bound listener) (clock_state clock) clock.spare (binder_state self.old) }
        ensures after { self.new ≡ after_back listener clock self.old }
    {
        self.returned += 1;
        self.listeners.take_back(listener);
        self.keep(clock);
    }
}
