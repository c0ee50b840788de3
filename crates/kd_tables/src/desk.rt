//! The desk of a bus.

ghost use Rattle.std.specs.Prelude.{◌≡◌, ◌<◌, ◌%◌, [], IfOk, IfSome, option_map};
ghost use Rattle.std.specs.Borrow.{Bor};
ghost use Rattle.kd_model.specs.Words.{contains, some_of};
ghost use Rattle.kd_registry.specs.Claims.{owner_id};
ghost use Rattle.kd_tables.specs.Room.{marked};
ghost use Rattle.kd_commands.specs.State.{conn_of, opening_desk, has_seat, seat_set, with_blocked};
ghost use Rattle.kd_commands.specs.declared.conn.Conn as conn;

use kd_bloom::Param;
use kd_commands::Conn;
use kd_endpoint::Endpoints;
use kd_match::Matches;
use kd_policy::PolicyDb;
use kd_registry::Registry;
use kd_replies::Replies;
use kd_seal::Seals;
use kd_types::{ConnId, Moment, Seat, Text};
use std::alloc::{AllocError, Global};
use std::marker::Model;

/// The seats of a bus: it has at most so many connections at once, and the next HELLO is refused.
pub const SEATS: usize = 64;

/// What a bus knows of its callers, seen as one record.
#[derive(Debug, Drop)]
pub struct Desk {
    pub(crate) creator: u32,
    /// The size of filters and the number of their hashes.
    pub param: Param,
    /// The connections, by rising seat.
    pub conns: Vec<Conn>,
    /// A mark for each seat of a connection that others closed.
    pub(crate) gone: [bool; SEATS],
    /// The endpoints and their labels.
    pub endpoints: Endpoints,
    /// What owners of entries grant on names.
    pub policy: PolicyDb,
    /// Who claims which name.
    pub registry: Registry,
    /// The rules of connections.
    pub matches: Matches,
    /// The bytes that connections sealed.
    pub seals: Seals,
    /// The requests that wait for their replies.
    pub replies: Replies,
    /// The id of the next connection.
    pub next_id: u64,
    /// The latest moment that was told.
    pub moment: Moment,
}

impl Model for Desk {
    ghost use Rattle.kd_commands.specs.State as state;
    ghost use Rattle.kd_tables.specs.Room.{HasRoom, desk_of};

    ghost Value = { state.Desk };

    ghost view = { desk_of };

    ghost invariant = { HasRoom };
}

/// No seat waits for its caller.
fn no_marks() -> [bool; SEATS]
    ensures { marked result ≡ [] }
{
    [false; SEATS]
}

impl Desk {
    /// The desk of a new bus, by the user who makes it and the parameter of its filters. All tables
    /// are made with room for as much as 64 connections can have.
    #[tactic(auto, unfolding(kd_commands::specs::State::opening_desk))]
    pub fn make(alloc: Global, creator: u32, param: Param) -> Result<Desk, AllocError>
        ensures opening { IfOk result (λ d. d ≡ opening_desk creator param.size param.hashes) }
    {
        Ok(Desk {
            creator,
            param,
            conns: Vec::with_capacity(alloc, SEATS)?,
            gone: no_marks(),
            endpoints: Endpoints::make(alloc)?,
            policy: PolicyDb::make(alloc)?,
            registry: Registry::make(alloc)?,
            matches: Matches::make(alloc, param)?,
            seals: Seals::make(alloc)?,
            replies: Replies::make(alloc)?,
            next_id: 1,
            moment: Moment(0),
        })
    }

    /// Whether a live connection has the seat.
    pub fn occupied(&self, seat: Seat) -> bool
        ensures { result ≡ some_of (has_seat seat) self.now.conns }
    {
        self.conns.iter().any(|conn| conn.seat == seat)
    }

    /// Whether the seat waits for the caller of a connection that others closed.
    pub fn blocked(&self, seat: Seat) -> bool
        ensures { result ≡ contains seat self.now.blocked }
    {
        let place = usize::from(seat.0);
        place < SEATS && self.gone[place]
    }

    /// Blocks a seat, whose caller has yet to learn that its connection is gone.
    pub fn block(&mut self, seat: Seat)
        requires seat { seat < 64 }
        ensures { self.new ≡ with_blocked seat self.old }
    {
        self.gone[usize::from(seat.0)] = true;
    }

    /// Forgets all connections and all else that it was told, as though it had just been made, but
    /// for the seats that wait for their callers. It takes no memory.
    #[tactic(auto, unfolding(kd_commands::specs::State::opening_desk))]
    pub fn clear(&mut self)
        ensures cleared { self.new
            ≡ record (opening_desk self.old.creator self.old.rules.size self.old.hashes) {
              blocked = self.old.blocked;
            } }
        ensures seats { self.new.blocked ≡ seat_set self.new.blocked }
    {
        self.conns.clear();
        self.endpoints.clear();
        self.policy.clear();
        self.registry.clear();
        self.matches.clear();
        self.seals.clear();
        self.replies.clear();
        self.next_id = 1;
        self.moment = Moment(0);
    }

    /// The live connection of this id.
    pub fn conn_of(&self, id: ConnId) -> Option<&Conn>
        ensures conn { option_map (λ (c : Bor conn.Conn). c.now) result ≡ conn_of self.now id }
        ensures named { IfSome result (λ c. c.now.id ≡ id) }
        ensures seat { IfSome result (λ c. c.now.seat < 64) }
        ensures words { IfSome result (λ c. c.now.size % 8 ≡ 0) }
    {
        self.conns.iter().find(|conn| conn.id == id)
    }

    /// Who owns the name; 0 for nobody.
    pub fn owner_id(&self, name: &Text) -> ConnId
        ensures { result ≡ owner_id self.now.registry name.now }
    {
        match self.registry.owner(name.bytes()) {
            Some((id, _)) => id,
            None => ConnId(0),
        }
    }
}
