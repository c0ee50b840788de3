//! What a command changes on the desk.

use kd_commands::Conn;
use kd_match::Condition;
use kd_policy::{Entry, Owner};
use kd_registry::Verdict;
use kd_replies::Request;
use kd_seal::Sealed;
use kd_types::{ConnId, Cookie, Moment, NameFlags, Seat, Text};

/// What a connection brings along when it comes.
#[derive(Debug, Drop)]
pub enum Brought {
    /// Nothing but itself.
    Nothing,
    /// An activator: its name.
    Name(Text),
    /// A policy holder: its entries.
    Entries(Vec<Entry>),
}

/// The change that a plan holds ready, with all memory that it needs.
#[derive(Debug, Drop)]
pub enum Change {
    /// The desk stays as it is.
    Nothing,
    /// A connection comes.
    Arrives {
        conn: Conn,
        brought: Brought,
    },
    /// A connection leaves, and all that it has goes.
    Leaves(ConnId),
    /// The caller of a connection that others closed knows it, and its seat is free again.
    Unblocks(Seat),
    /// A message that expects a reply was placed.
    Expects(Request),
    /// The reply to a request was placed.
    Answers {
        asker: ConnId,
        cookie: Cookie,
    },
    /// A claim on a name; the verdict is the registry's.
    Acquires {
        id: ConnId,
        flags: NameFlags,
        name: Text,
        verdict: Verdict,
    },
    /// The connection's claim on the name goes.
    Releases {
        id: ConnId,
        name: Text,
    },
    /// The connection's bytes are sealed under its next number.
    Seals {
        id: ConnId,
        sealed: Sealed,
    },
    /// The connection's seal of the number goes.
    Unseals {
        id: ConnId,
        number: u64,
    },
    /// The connection has a rule more, in place of those of its cookie where it replaces them.
    AddsRule {
        id: ConnId,
        cookie: Cookie,
        conditions: Vec<Condition>,
        replace: bool,
    },
    /// The connection's rules of the cookie go.
    RemovesRules {
        id: ConnId,
        cookie: Cookie,
    },
    /// The owner has these policy entries in place of those that it had.
    SetsPolicy {
        owner: Owner,
        entries: Vec<Entry>,
    },
    /// There is an endpoint more, with its first entries.
    AddsEndpoint {
        label: Text,
        number: u8,
        entries: Vec<Entry>,
    },
    /// The endpoint goes with its entries and these connections, which are all on it; their seats
    /// are blocked.
    EndsEndpoint {
        endpoint: u8,
        leavers: Vec<ConnId>,
    },
    /// The moment goes on, and what is due goes.
    Passes(Moment),
}
