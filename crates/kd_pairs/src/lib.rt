//! That each message is published as it was offered: by the caller that was given its slice, with
//! the content that the desk addressed. All of it stands in `specs/`; the function's contract is a
//! law.
//!
//! ```text
//!   seat 1's pool   offer    receive   offer    publish   publish   free
//!                   by 2     by 1      by 3     by 3      by 2      by 1
//!                   number 0           number 1 1         0
//! ```
#![tactic(auto)]

mod laws;

pub use laws::publishes_are_paired;
