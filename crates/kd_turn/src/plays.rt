//! What each step on a word tells the pass that makes it.
ghost use Rattle.kd_hands.specs.Views.{both, child, parent, spent};
ghost use Rattle.kd_turn.specs.Told.{drew, looked, passed, sets_mark, swept_up};
ghost use Rattle.kd_hands.specs.Locks.{Fact, hands_after};

use crate::standing::Standing;
use crate::views::{Cell, View};
use atomic_table::{Join, Play, Split};
use std::marker::PhantomData;

/// Draws a ticket.
pub(crate) struct Draw;

impl<X, E> Play<Cell<X, E>, View<E>> for Draw {
    ghost then = { drew };
}

/// Looks whether the ticket is served, and takes the value if so.
pub(crate) struct Look<T> {
    of: PhantomData<T>,
}

impl<T: Standing> Play<Cell<T, T::Entry>, View<T::Entry>> for Look<T> {
    ghost then = { looked T.stands (Fact T.tie T.lends T.out T.keeper) };
}

/// Passes the lock on.
pub(crate) struct PassOn<T> {
    of: PhantomData<T>,
}

impl<T: Standing> Play<Cell<T, T::Entry>, View<T::Entry>> for PassOn<T> {
    ghost then = { passed (hands_after T.hand_after T.empties) };
}

/// Marks a number.
pub(crate) struct Mark;

impl<X, E> Play<Cell<X, E>, View<E>> for Mark {
    ghost then = { sets_mark };
}

/// Sweeps one word of marks.
pub(crate) struct Sweep;

impl<X, E> Play<Cell<X, E>, View<E>> for Sweep {
    ghost then = { swept_up };
}

/// Makes one pass more.
pub(crate) struct Cut;

impl<E> Split<View<E>> for Cut {
    ghost left = { parent };

    ghost right = { child };
}

/// Takes a pass in.
pub(crate) struct Absorb;

impl<E> Join<View<E>> for Absorb {
    ghost both = { both };

    ghost spent = { spent };
}
