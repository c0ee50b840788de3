//! Pools with their generations, what is done to them, and what callers keep of it: below the
//! events of a world.
//!
//! ```text
//!   plan     Drain 3     Settle 1   Post 1   Post 2        the holder's, made by the desk
//!   made     a buffer                                      taken before the first visit
//!   outs     Done        Done       Slice 4  Slice 0       one behind each visit
//!   drained  messages                                      as the buffer had them, for the proofs
//!
//!   plan     Offer 1     Offer 2
//!   outs     Slice 0     Slice 4
//!   pending  1: 0        2: 4                              what its caller has yet to publish
//! ```
//!
//! - `hold`: a pool that is closed or open, with its generation; `opened`: what is done to an open
//!   one; `pools`: the same by seat, among all pools
//! - `made`: the memory that the visits of a plan use, and what they drained
//! - `holder`: who has taken the desk, and its visits; `keeping`: what it placed becomes pending
//! - `pending`: an offer that was placed, until it is published; `oldest`: which is published next
//! - `hand`: what a caller was told of its slices
//! - `laws`: what holds of every act at a pool, and of the parts of every plan
#![tactic(auto)]

mod hand;
mod hold;
mod holder;
mod keeping;
mod laws;
mod made;
pub mod oldest;
mod opened;
mod pending;
pub mod pools;

pub use hand::Hand;
pub use hold::Hold;
pub use holder::Holder;
pub use keeping::keep_all;
pub use laws::{counts_by_one, plans_are_in_order, visits_count};
pub use made::Made;
pub use pending::{Pending, Published};
