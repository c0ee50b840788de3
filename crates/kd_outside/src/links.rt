//! A listener in memory, which gives the links that it was made with.

ghost use Rattle.std.specs.Prelude.{◌≡◌, ◌≤◌, ◌<◌, ◌+◌, ◌↔◌, length, IsTrue, IsErr, IfOk, OnErr};
ghost use Rattle.std.specs.declared.option.Option.TheVariants.{Some};
ghost use Rattle.kd_outside.specs.Causes.{HasCause};
ghost use Rattle.kd_outside.specs.Told.{Accepts, with_served};
ghost use Rattle.kd_outside.specs.Memory.{line_state};
ghost use Rattle.kd_outside.specs.Racks.{next_of};
ghost use Rattle.kd_outside.specs.Serving.{ListenerParts, new_listener, listener_state, gives_no_link, after_accept, with_line, on_path};

use crate::calls::Calls;
use crate::line::MemLink;
use crate::path::ToldPath;
use crate::rack::Rack;
use crate::service::Listener;
use crate::traits::Failed;
use kd_types::SessionEnd;
use std::marker::Model;
use std::sync::Wait;

/// Links that are given in order, and those that came back, in the order in which they did.
#[derive(Debug, Drop)]
pub struct ListListener {
    links: Rack<MemLink>,
    gave: u64,
    returned: u64,
    calls: Calls,
    path: ToldPath,
}

impl Model for ListListener {
    ghost Value = { ListenerParts };

    ghost view = { λ n. record {
      links = n.links;
      gave = n.gave;
      returned = n.returned;
      calls = n.calls;
      path = n.path;
    } };

    ghost invariant = { λ n. (n.returned ≡ length n.links.back)
        × (n.gave ≡ n.returned + n.links.out) };
}

impl ListListener {
    /// A listener that gives these links, and whose accepts of the numbers in `fails` fail, counted
    /// from 1. It takes no memory: the links come back into their own vector.
    pub fn make(links: Vec<MemLink>, fails: Vec<u64>) -> ListListener
        ensures { result ≡ new_listener links.items fails.items }
    {
        ListListener {
            links: Rack::of(links),
            gave: 0,
            returned: 0,
            calls: Calls::of(fails),
            path: ToldPath::none(),
        }
    }

    /// The links that came back, in order.
    pub fn ended(&self) -> &[MemLink]
        ensures { result.now ≡ self.now.links.back }
    {
        self.links.ended()
    }

    /// Whether the next accept fails.
    fn gives_none(&self) -> bool
        ensures { result ≡ gives_no_link self.now }
    {
        if self.calls.fails_next() {
            return true;
        }
        self.links.is_over()
    }

    /// The listener, bound on this path.
    pub(crate) fn on_path(self, path: &str) -> ListListener
        ensures bound { result ≡ on_path path.now self }
        ensures counted { result.returned ≤ result.gave }
    {
        ListListener {
            path: ToldPath::of(path),
            ..self
        }
    }
}

impl Listener for ListListener {
    type L = MemLink;

    ghost told = { listener_state };

    ghost path = { λ n. n.path };

    /// Gives the next link; fails at the calls that were named and where no link is to come, and at
    /// no other.
    fn accept<R: Wait>(&mut self, _rt: &R) -> Result<MemLink, Failed>
        ensures cause { HasCause self.old.calls.faults self.new.calls.faults result }
        ensures given { IfOk result
            (λ link. Accepts (listener_state self.old) (listener_state self.new)
            (line_state link)) }
        ensures failed { OnErr result
            (listener_state self.new
            ≡ record (listener_state self.old) { faults = (listener_state self.new).faults }) }
        ensures path { self.new.path ≡ self.old.path }
        ensures failing { IsErr result ↔ IsTrue (gives_no_link self.old) }
        ensures link { IfOk result (λ link. next_of self.old.links.coming ≡ Some link) }
        ensures after { self.new ≡ after_accept self.old }
    {
        if self.gives_none() {
            self.calls.count_fault();
            return Err(Failed);
        }
        let link = self.links.hand_out();
        self.gave += 1;
        self.calls.count();
        Ok(link)
    }

    /// Keeps the link behind those that came back before it.
    fn done(&mut self, link: MemLink, end: SessionEnd)
        requires { self.old.returned < self.old.gave }
        ensures back { listener_state self.new
            ≡ with_served (line_state link) end (listener_state self.old) }
        ensures path { self.new.path ≡ self.old.path }
        ensures after { self.new ≡ with_line link end self.old }
    {
        self.returned += 1;
        self.links.take_back(link.with_end(end));
    }
}
