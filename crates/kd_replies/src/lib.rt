//! The requests that wait for a reply.
//!
//! A message that expects a reply leaves a request behind: who asked, who is to reply, the cookie
//! by which the asker knows the reply, and the moment up to which it waits. The idea comes from the
//! replies of kdbus; that the requests are one table of the bus is this project's own.
//!
//! ```text
//! asker     1     1     1     4           the table, by asker and then by cookie:
//! cookie    3     7     9     7           a binary search finds a request, or where it goes,
//! replier   2     2     5     1           and the requests of one asker stand side by side
//! deadline  90    10    10    55
//!
//! due(10)             (1, 7), (1, 9)      by deadline, asker, cookie
//! dead_without([2])   (1, 3), (1, 7)      by asker, cookie
//! ```
#![tactic(auto)]

mod replies;
mod request;

pub use replies::{REQUESTS, REQUESTS_OF_ONE, Replies};
pub use request::Request;
