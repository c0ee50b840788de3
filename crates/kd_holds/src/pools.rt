//! What is done to the pool of one seat, among the pools of all. Beyond the last seat every pool is
//! closed.

ghost use Rattle.std.specs.Prelude.{◌≡◌, ◌≢◌, ◌-◌, ◌^◌, ◌∷◌, IfErr, IfOk, IsTrue, List, get_or, set};
ghost use Rattle.std.specs.List.{AllByRecursion};
ghost use Rattle.kd_acts.specs.State.{bytes_of, free, publish, read, receive, refused};
ghost use Rattle.kd_acts.specs.Steps.{after, answer};
ghost use Rattle.kd_pool.specs.Told.{receive_answer};
ghost use Rattle.kd_tables.specs.Drafts.{IsVisitable};
ghost use Rattle.kd_tables.specs.declared.part.Part as code;
ghost use Rattle.kd_holds.specs.Counts.{IsBelow};
ghost use Rattle.kd_world.specs.Hands.{hand_received};
ghost use Rattle.kd_world.specs.State.{closed_pool};
ghost use Rattle.kd_holds.specs.Publishing as publishing;
ghost use Rattle.kd_holds.specs.Handing.{IsMadeFor};
ghost use Rattle.kd_holds.specs.Visits.{IsVisited};

use crate::hand::Hand;
use crate::hold::Hold;
use crate::made::Made;
use crate::pending::{Pending, Published};
use kd_desk::{Out, Part};
use kd_pool::{Got, RecvMode};
use kd_types::{Refusal, Seat};
use std::alloc::Global;

/// Does what a part of a plan asks for at the pool of its seat.
pub fn visit(pools: &mut Vec<Hold>, part: &Part, made: &mut Made) -> Out
    requires visitable { IsVisitable part.now }
    requires ready { (rest : List code.Part) × IsMadeFor made.old (part.now ∷ rest) }
    requires counts { AllByRecursion (IsBelow (2 ^ 63 - 1)) pools.old.items }
    ensures visited { IsVisited part.now pools.old.items pools.new.items result
        made.old.drained made.new.drained }
    ensures made { (rest : List code.Part) → IsMadeFor made.old (part.now ∷ rest)
        → IsMadeFor made.new rest }
{
    match pools.get_mut(part.seat().0 as usize) {
        Some(hold) => hold.visit(part, made),
        None => Hold::closed().visit(part, made),
    }
}

/// Publishes a message at the pool of its seat.
pub fn publish(pools: &mut Vec<Hold>, pending: Pending) -> Published
    requires counts { AllByRecursion (IsBelow (2 ^ 63 - 1)) pools.old.items }
    ensures after { pools.new.items
        ≡ set pools.old.items pending.seat (after (get_or pools.old.items pending.seat closed_pool)
        (publish pending.generation pending.number pending.content)) }
    ensures answer { publishing.publish_answer result
        ≡ answer (get_or pools.old.items pending.seat closed_pool)
        (publish pending.generation pending.number pending.content) }
{
    match pools.get_mut(pending.seat.0 as usize) {
        Some(hold) => hold.publish(pending),
        None => Hold::closed().publish(pending),
    }
}

/// Takes the next message of a seat's pool, and tells the hand what became of its slice.
pub fn receive(
    pools: &mut Vec<Hold>,
    seat: Seat,
    hand: &mut Hand,
    mode: RecvMode,
) -> Result<Got, Refusal>
    requires { ¬ (IsTrue mode.peek × IsTrue mode.drop_it) }
    ensures after { pools.new.items
        ≡ set pools.old.items seat
        (after (get_or pools.old.items seat closed_pool) (receive mode)) }
    ensures answer { receive_answer result
        ≡ answer (get_or pools.old.items seat closed_pool) (receive mode) }
    ensures hand { hand.new
        ≡ hand_received mode
        (answer (get_or pools.old.items seat closed_pool) (receive mode)) hand.old }
{
    match pools.get_mut(seat.0 as usize) {
        Some(hold) => hold.receive(hand, mode),
        None => Hold::closed().receive(hand, mode),
    }
}

/// The bytes of a slice in a seat's pool, or of its share.
pub fn read(
    pools: &[Hold],
    alloc: Global,
    seat: Seat,
    number: u32,
    sealed: bool,
) -> Result<Vec<u8>, Refusal>
    ensures bytes { IfOk result
        (λ v. answer (get_or pools.now seat closed_pool) (read number sealed) ≡ bytes_of v.items) }
    ensures refused { IfErr result (λ e.
        e ≢ Refusal.OutOfMemory
        → answer (get_or pools.now seat closed_pool) (read number sealed) ≡ refused e) }
{
    match pools.get(seat.0 as usize) {
        Some(hold) => hold.read(alloc, number, sealed),
        None => Hold::closed().read(alloc, number, sealed),
    }
}

/// Gives a received slice back to a seat's pool.
pub fn free(pools: &mut Vec<Hold>, seat: Seat, number: u32)
    ensures { pools.new.items
        ≡ set pools.old.items seat (after (get_or pools.old.items seat closed_pool) (free number)) }
{
    if let Some(hold) = pools.get_mut(seat.0 as usize) {
        hold.free(number);
    }
}
