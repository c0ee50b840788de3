//! Which events may happen next.

ghost use Rattle.std.specs.Prelude.{◌≡◌, ◌&&◌, IsTrue, is_none, not};
ghost use Rattle.kd_core.specs.Running.{event_of};
ghost use Rattle.kd_world.specs.Holding.{holds_desk};
ghost use Rattle.kd_world.specs.Legal.{is_caller, is_for_desk, legal, leave, publishes, take, visit};

use crate::event::Event;
use crate::world::{CALLERS, World};
use kd_holds::oldest;
use kd_types::Seat;
use kd_wire::Command;

/// Whether a caller has this number.
fn is_caller(number: u64) -> bool
    ensures { result ≡ is_caller number }
{
    1 <= number && number <= CALLERS as u64
}

/// Whether the desk has an answer to the command: receives, reads and frees go by the pools, and
/// the one bus is there already.
fn is_for_desk(command: &Command) -> bool
    ensures { result ≡ is_for_desk command.now }
{
    !matches!(
        command,
        Command::Recv { .. } | Command::Read { .. } | Command::Free { .. } | Command::MakeBus { .. }
    )
}

impl World {
    /// Whether the event is legal now.
    #[tactic(auto, unfolding(kd_world::specs::Legal::legal))]
    pub fn may(&self, event: &Event) -> bool
        ensures { result ≡ legal self.now.world (event_of event.now) }
    {
        match event {
            Event::Take { caller, command } => self.may_take(*caller, command),
            Event::Visit { caller, seat } => self.may_visit(*caller, *seat),
            Event::Leave { caller } => self.may_leave(*caller),
            Event::Publish {
                caller,
                seat,
                number,
            } => self.may_publish(*caller, *seat, *number),
            Event::Receive { caller, mode } => {
                self.is_apart(*caller) && !(mode.peek && mode.drop_it)
            }
            Event::Read { caller, .. } | Event::Free { caller, .. } => self.is_apart(*caller),
        }
    }

    /// Whether the caller holds the desk.
    fn holds_desk(&self, caller: u64) -> bool
        ensures { result ≡ holds_desk self.now.world caller }
    {
        match &self.holder {
            Some(holder) => holder.caller == caller,
            None => false,
        }
    }

    /// Whether it is a caller, and doesn't hold the desk.
    fn is_apart(&self, caller: u64) -> bool
        ensures { result ≡ (is_caller caller && not (holds_desk self.now.world caller)) }
    {
        is_caller(caller) && !self.holds_desk(caller)
    }

    #[tactic(auto, unfolding(kd_world::specs::Legal::legal))]
    fn may_take(&self, caller: u64, command: &Command) -> bool
        ensures { result ≡ legal self.now.world (take caller command.now) }
    {
        is_caller(caller)
            && self.holder.is_none()
            && is_for_desk(command)
            && command.is_well_formed()
    }

    #[tactic(auto, unfolding(kd_world::specs::Legal::legal))]
    fn may_visit(&self, caller: u64, seat: Seat) -> bool
        ensures { result ≡ legal self.now.world (visit caller seat) }
    {
        is_caller(caller) && self.holds_desk(caller) && self.next_seat() == Some(seat)
    }

    #[tactic(auto, unfolding(kd_world::specs::Legal::legal))]
    fn may_leave(&self, caller: u64) -> bool
        ensures { result ≡ legal self.now.world (leave caller) }
    {
        is_caller(caller) && self.holds_desk(caller) && self.next_seat().is_none()
    }

    #[tactic(auto, unfolding(kd_world::specs::Legal::legal))]
    fn may_publish(&self, caller: u64, seat: Seat, number: u32) -> bool
        ensures { result ≡ legal self.now.world (publishes caller seat number) }
    {
        self.is_apart(caller) && oldest::has(&self.caller(caller).pendings, seat, number)
    }
}
