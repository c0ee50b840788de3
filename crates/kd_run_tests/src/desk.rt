//! A new desk and its seats.

ghost use Rattle.std.specs.Prelude.{◌≤◌, ◌≡◌, IfOk, IfSome, IsTrue};
ghost use Rattle.kd_wire.specs.WellFormed.{is_well_formed};

use kd_bloom::Param;
use kd_desk::{Desk, Who, WhoKind};
use kd_types::{Creds, HelloFlags, Refusal, Seat};
use kd_wire::{Command, WireItems};
use std::alloc::{AllocError, Global};
use std::test::Fail;

/// A caller that is nothing yet.
const COMER: Who = Who {
    creds: Creds {
        uid: 1000,
        gid: 1000,
        privileged: true,
    },
    member: WhoKind::Fresh,
};

fn hello(alloc: Global) -> Command {
    Command::Hello {
        flags: HelloFlags(0),
        pool: 4096,
        send_mask: 0,
        receive_mask: 0,
        items: WireItems::of(Vec::new(alloc)),
    }
}

#[test]
fn a_seat_is_blocked_once(rt: HostRuntime) -> Result<(), Fail> {
    let param = Param::of(64, 8).ok_or("64 bytes and 8 hashes are in range")?;
    let mut desk = Desk::make(rt.alloc(), 1000, param)?;
    assert!(rt; !desk.occupied(Seat(0)));
    assert!(rt; !desk.blocked(Seat(3)));
    desk.block(Seat(3));
    desk.block(Seat(3));
    assert!(rt; desk.blocked(Seat(3)));
    assert!(rt; !desk.blocked(Seat(4)));
    assert!(rt; !desk.occupied(Seat(3)));
    assert!(rt; !desk.blocked(Seat(200)));
    Ok(())
}

/// The command, if it has a frame.
fn with_a_frame(command: Command) -> Option<Command>
    ensures { IfSome result (λ c. IsTrue (is_well_formed c)) }
{
    if command.is_well_formed() {
        Some(command)
    } else {
        None
    }
}

/// A new desk on which so many seats wait for their callers.
#[tactic(auto, unfolding(kd_commands::specs::State::opening_desk))]
fn blocked_desk(alloc: Global, blocked: u8) -> Result<Desk, AllocError>
    requires { blocked ≤ 64 }
    ensures { IfOk result (λ d. d.next_id ≡ 1) }
{
    let param = Param {
        size: 64,
        hashes: 8,
    };
    let mut desk = Desk::make(alloc, 1000, param)?;
    for seat in 0..blocked {
        desk.block(Seat(seat));
    }
    Ok(desk)
}

/// Whether a comer's HELLO is refused where so many seats wait for their callers: the most that a
/// bus has are taken then.
fn is_full_with(alloc: Global, blocked: u8) -> Result<bool, Fail>
    requires { blocked ≤ 64 }
{
    let command = with_a_frame(hello(alloc)).ok_or("a HELLO without items has a frame")?;
    let desk = blocked_desk(alloc, blocked)?;
    let plan = kd_desk::plan(&desk, alloc, &COMER, command);
    Ok(matches!(plan, Err(Refusal::TooMany { limit: 64 })))
}

#[test]
fn a_blocked_seat_counts_among_those_that_are_taken(rt: HostRuntime) -> Result<(), Fail> {
    let alloc = rt.alloc();
    assert!(rt; !is_full_with(alloc, 63)?);
    assert!(rt; is_full_with(alloc, 64)?);
    Ok(())
}
