//! The oldest message that a caller has for one slice.

ghost use Rattle.std.specs.Prelude.{◌≡◌, ◌≢◌, None, Some, is_some};
ghost use Rattle.std.specs.List.{position};
ghost use Rattle.kd_model.specs.Words.{first};
ghost use Rattle.kd_world.specs.Own.{is_pending_at};
ghost use Rattle.kd_world.specs.Callers.{without_first};

use crate::pending::Pending;
use kd_types::Seat;

/// Where the oldest of the seat and number stands.
fn place_of(pendings: &[Pending], seat: Seat, number: u32) -> Option<usize>
    ensures { result ≡ position (is_pending_at seat number) pendings.now }
{
    pendings.iter().position(|pending| pending.seat == seat && pending.number.0 == number)
}

/// Whether there is one of the seat and number.
pub fn has(pendings: &[Pending], seat: Seat, number: u32) -> bool
    ensures { result ≡ is_some (first (is_pending_at seat number) pendings.now) }
{
    place_of(pendings, seat, number).is_some()
}

/// Takes out the oldest of the seat and number.
pub fn take(pendings: &mut Vec<Pending>, seat: Seat, number: u32) -> Pending
    requires { first (is_pending_at seat number) pendings.old.items ≢ None }
    ensures taken { first (is_pending_at seat number) pendings.old.items ≡ Some result }
    ensures others { pendings.new.items
        ≡ without_first (is_pending_at seat number) pendings.old.items }
{
    let Some(place) = place_of(pendings, seat, number) else {
        unreachable!();
    };
    pendings.remove(place)
}
