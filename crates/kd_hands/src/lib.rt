//! What the lists of turn-locks say at one moment, what one pass knows of it, and the numbers that
//! are lent out.
//!
//! Each lock has a list, which grows by one entry a turn. A world is what the lists, hands and
//! marks of all passes are at one moment; a view is what one pass knows. The world changes with
//! each step of any pass, and stays in keeping with each view:
//!
//! ```text
//! step                   the view of the pass          the world
//! takes a lock           `holding`: its whole list     `taken`
//! puts an entry          `passed_on`                   `entered`
//! marks a number         `marked`                      `marked_in`
//! sweeps a mark word     `cleared`                     `swept_in`
//! ```
//!
//! The values behind some locks lend numbers, and the list of a lock says which of these it has
//! out. One that is out is in a hand, which a put brings it to and a mark takes it from; or it is
//! marked, until a sweep clears its mark word; or it is in a word that the holder of the lock has
//! swept in this turn. That it is in one of these ways alone is the point on hands, `Handed`.
//!
//! No code runs here. `specs/Locks` and `specs/Views` define the steps, `specs/Fits` says when a
//! world is in keeping with a view, and `specs/Settles` what a caller shows of its own lock, so
//! that the point on hands holds of all.
//!
//! - `views`: what a pass knows, of which no value is made
//! - `lending`: what the lists say of numbers
//! - `laws`: each step keeps the point on hands
#![tactic(auto)]

pub mod laws;
pub mod lending;
pub mod views;
