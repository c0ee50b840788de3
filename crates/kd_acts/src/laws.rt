//! What holds of every act on a pool. Nothing is run here; each function's contract is a law.

ghost use Rattle.kd_acts.specs.Arriving.{ArrivalsStay, PublishesLast};
ghost use Rattle.kd_acts.specs.Lasting.{HandedFollows, NumbersStay, OpenFollows, ReceivesWaiting, SlicesLast};

/// Whether a pool is open follows from the acts on it and their answers: a raise opens it, a close
/// that isn't refused ends it, and no other act does either.
#[tactic(auto, using(crate::proofs::Lasting::open_follows))]
pub fn open_follows()
    ensures { OpenFollows }
{}

/// The slices of a pool have numbers of their own, below 256, after each act as before it.
#[tactic(auto, using(crate::proofs::Lasting::numbers_stay))]
pub fn numbers_stay()
    ensures { NumbersStay }
{}

/// Which slices are received and not freed follows from the acts on a pool and their answers: a
/// receive hands over the slice that it tells, a free takes one back, and with its pool every slice
/// goes.
#[tactic(auto, using(crate::proofs::Handed::handed_follows))]
pub fn handed_follows()
    ensures { HandedFollows }
{}

/// What a receive tells has one of 256 numbers, and wasn't received before.
pub fn receives_waiting()
    ensures { ReceivesWaiting }
{}

/// Each slice that isn't freed keeps its place and its bytes through every act but one that lets it
/// go and the publishing of its own message, which a slice has to be reserved for.
pub fn slices_last()
    ensures { SlicesLast }
{}

/// All that wait in a pool arrived before its next arrival number is given, after each act as
/// before it.
pub fn arrivals_stay()
    ensures { ArrivalsStay }
{}

/// What is published goes behind all that waits: a receive without a limit takes messages in the
/// order of their publishing, and so does one with a limit among those of one priority.
pub fn publishes_last()
    ensures { PublishesLast }
{}
