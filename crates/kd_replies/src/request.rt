//! A request that waits for its reply.

ghost use Rattle.std.specs.Prelude.{◌≡◌};
ghost use Rattle.kd_replies.specs.Order.{of_key, request_stands_before};
ghost use Rattle.kd_replies.specs.Renaming.{renamed};
ghost use Rattle.kd_replies.specs.Requests.{is_dead_without, request_waits, waits_for};

use kd_types::{ConnId, Cookie, Moment};

/// A request: the asker waits for the replier's message with the cookie, up to the deadline.
#[derive(Clone, Copy, Debug, PartialEq, Eq)]
pub struct Request {
    pub asker: ConnId,
    pub replier: ConnId,
    pub cookie: Cookie,
    pub deadline: Moment,
}

impl Request {
    /// Whether it stands before the place of this asker and cookie.
    pub(crate) fn stands_before(&self, asker: ConnId, cookie: Cookie) -> bool
        ensures { result ≡ request_stands_before self.now (of_key asker cookie) }
    {
        self.asker < asker || (self.asker == asker && self.cookie < cookie)
    }

    /// Whether it is the asker's with this cookie.
    pub(crate) fn is_of(&self, asker: ConnId, cookie: Cookie) -> bool
        ensures { result ≡ request_waits asker cookie self.now }
    {
        self.asker == asker && self.cookie == cookie
    }

    /// Whether it is the asker's with this cookie, and waits for this replier.
    pub(crate) fn waits_for(&self, asker: ConnId, replier: ConnId, cookie: Cookie) -> bool
        ensures { result ≡ waits_for asker replier cookie self.now }
    {
        self.is_of(asker, cookie) && self.replier == replier
    }

    /// Whether its replier leaves and its asker stays, when these leave.
    pub(crate) fn is_dead_without(&self, ids: &[ConnId]) -> bool
        ensures { result ≡ is_dead_without ids.now self.now }
    {
        ids.contains(&self.replier) && !ids.contains(&self.asker)
    }

    /// The request, waiting for `new` where it waited for `old`.
    pub(crate) fn with_replier(self, old: ConnId, new: ConnId) -> Request
        ensures { result ≡ renamed old new self }
    {
        if self.replier == old {
            Request {
                replier: new,
                ..self
            }
        } else {
            self
        }
    }
}
