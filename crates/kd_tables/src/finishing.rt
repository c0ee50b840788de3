//! Ending a plan: by what the pools answered, its change is made or isn't.

ghost use Rattle.std.specs.Prelude.{◌≡◌, ◌==◌, ◌≤◌, ◌<◌, ◌^◌, ◌+◌, ◌++◌, ◌-◌, ◌%◌, ℕ, [], ◌∷◌, length, nat_lt, position, vec_capacity, vec_len, Ok};
ghost use Rattle.std.specs.List.{AllByRecursion};
ghost use Rattle.kd_model.specs.Words.{but_those, put_in_order};
ghost use Rattle.kd_registry.specs.Claims.{asked, release_answer};
ghost use Rattle.kd_replies.specs.Requests.{is_due};
ghost use Rattle.kd_tables.specs.Drafts.{Fits, HasRoomFor, TakesBrought, applied, policy_brought, registry_brought};
ghost use Rattle.kd_commands.specs.State.{seat_set, sits_before, unblocked};
ghost use Rattle.kd_commands.specs.Leaving.{ids_of, on_endpoint, without_conns, without_endpoint};
ghost use Rattle.kd_commands.specs.Names.{with_claim, without_claim};
ghost use Rattle.kd_tables.specs.Room.{IsSeated, marked, seats_on};
ghost use Rattle.kd_tables.specs.Outs.{ended_on, is_needed, stops};

use crate::change::{Brought, Change};
use crate::desk::{Desk, SEATS};
use crate::part::{Out, Part};
use crate::plan::Plan;
use kd_commands::Conn;
use kd_match::Condition;
use kd_policy::{Entry, Owner};
use kd_registry::Verdict;
use kd_replies::Request;
use kd_seal::Sealed;
use kd_types::{ConnId, Cookie, Moment, NameFlags, Refusal, Seat, Text};
use kd_wire::Reply;

/// Whether a refusal of the part, as the first, ends the command.
fn is_needed(part: &Part) -> bool
    ensures { result ≡ is_needed part.now }
{
    match part {
        Part::Drain { .. } => true,
        Part::Close { force, .. } => !*force,
        Part::Offer { must, .. } => *must,
        Part::Raise { .. } | Part::Post { .. } | Part::Settle { .. } => false,
    }
}

/// Why the command ends without its change: its first part had to be done and was refused.
pub(crate) fn stops(parts: &[Part], outs: &[Out]) -> Option<Refusal>
    ensures { result ≡ stops parts.now outs.now }
{
    let [part, ..] = parts else {
        return None;
    };
    let [Out::Refused(why), ..] = outs else {
        return None;
    };
    if is_needed(part) { Some(*why) } else { None }
}

/// The place of the first connection on a higher seat.
fn first_behind(conns: &[Conn], seat: Seat) -> Option<usize>
    ensures { result ≡ position (λ (c : Conn). nat_lt seat c.seat) conns.now }
{
    conns.iter().position(|conn| seat < conn.seat)
}

/// Puts a connection between those on lower seats and those on higher ones.
fn seat_conn(conns: &mut Vec<Conn>, conn: Conn)
    requires room { vec_len conns.old < vec_capacity conns.old }
    ensures put { conns.new.items ≡ put_in_order sits_before conn conns.old.items }
    ensures room { vec_capacity conns.old ≤ vec_capacity conns.new }
{
    let place = first_behind(conns, conn.seat).unwrap_or(conns.len());
    conns.insert(place, conn).unwrap();
}

/// Takes a connection out.
fn remove_conn(conns: &mut Vec<Conn>, id: ConnId)
    ensures others { conns.new.items ≡ but_those (λ (c : Conn). c.id == id) conns.old.items }
    ensures room { vec_capacity conns.old ≤ vec_capacity conns.new }
{
    conns.retain(|conn| !(conn.id == id));
}

/// Marks the seats of the connections on the endpoint.
fn mark_seats(marks: &mut [bool; SEATS], conns: &[Conn], endpoint: u8)
    requires seats { AllByRecursion IsSeated conns.now }
    ensures { marked marks.new ≡ seat_set (marked marks.old ++ seats_on conns.now endpoint) }
{
    'conns: for conn in conns {
        if conn.endpoint == endpoint {
            marks[usize::from(conn.seat.0)] = true;
        }
    }
}

impl Desk {
    /// Ends a plan that was made for the desk as it is, by what the pools answered to its visits.
    /// Where the first visit had to be done and was refused the desk stays as it is; else the
    /// plan's change is made. It takes no memory.
    #[tactic(auto, using(crate::proofs::Ending::ends_where_it_stops), unfolding(crate::specs::Outs::ended_on, crate::specs::Drafts::drafted))]
    pub fn finish(&mut self, plan: Plan, outs: &[Out]) -> Reply
        requires fits { Fits self.old plan.change }
        ensures reply { result ≡ (ended_on self.old plan outs.now).reply }
        ensures after { self.new ≡ (ended_on self.old plan outs.now).next }
    {
        match stops(&plan.parts, outs) {
            Some(why) => Reply::Refused(why),
            None => {
                self.apply(plan.change);
                plan.reply
            }
        }
    }

    /// Makes a change that fits.
    #[tactic(auto, unfolding(crate::specs::Drafts::applied, crate::specs::Drafts::Fits))]
    fn apply(&mut self, change: Change)
        requires fits { Fits self.old change }
        ensures { self.new ≡ applied change self.old }
    {
        match change {
            Change::Nothing => (),
            Change::Arrives { conn, brought } => self.arrive(conn, brought),
            Change::Leaves(id) => self.leave(id),
            Change::Unblocks(seat) => self.unblock(seat),
            Change::Expects(request) => self.expect(request),
            Change::Answers { asker, cookie } => self.replies.answer(asker, cookie),
            Change::Acquires {
                id,
                flags,
                name,
                verdict,
            } => self.acquire(id, flags, name, verdict),
            Change::Releases { id, name } => self.release(id, &name),
            Change::Seals { id, sealed } => self.seal(id, sealed),
            Change::Unseals { id, number } => self.seals.unseal(id, number).unwrap(),
            Change::AddsRule {
                id,
                cookie,
                conditions,
                replace,
            } => self.add_rule(id, cookie, conditions, replace),
            Change::RemovesRules { id, cookie } => self.matches.remove(id, cookie).unwrap(),
            Change::SetsPolicy { owner, entries } => self.set_policy(owner, entries),
            Change::AddsEndpoint {
                label,
                number,
                entries,
            } => self.add_endpoint(label, number, entries),
            Change::EndsEndpoint { endpoint, leavers } => self.end_endpoint(endpoint, &leavers),
            Change::Passes(now) => self.pass(now),
        }
    }

    /// A connection comes, with what it brings.
    #[tactic(auto, unfolding(crate::specs::Drafts::applied, crate::specs::Drafts::Fits))]
    fn arrive(&mut self, conn: Conn, brought: Brought)
        requires fits { Fits self.old (Change.Arrives conn brought) }
        ensures { self.new ≡ applied (Change.Arrives conn brought) self.old }
    {
        let id = conn.id;
        self.seat(conn);
        self.take_brought(id, brought);
    }

    /// A connection more, and the next one has a higher id.
    fn seat(&mut self, conn: Conn)
        requires room { length self.old.conns < 64 }
        requires seat { conn.seat < 64 }
        requires words { conn.size % 8 ≡ 0 }
        requires ids { self.old.next_id < 2 ^ 64 - 1 }
        ensures { self.new
            ≡ record self.old {
              conns = put_in_order sits_before conn self.old.conns;
              next_id = self.old.next_id + 1;
            } }
    {
        seat_conn(&mut self.conns, conn);
        self.next_id += 1;
    }

    /// An activator has its name, or a holder its entries.
    fn take_brought(&mut self, id: ConnId, brought: Brought)
        requires takes { TakesBrought self.old.registry id brought }
        requires room { HasRoomFor self.old.registry self.old.policy id brought }
        ensures { self.new
            ≡ record self.old {
              registry = registry_brought self.old.registry id brought;
              policy = policy_brought self.old.policy id brought;
            } }
    {
        match brought {
            Brought::Nothing => (),
            Brought::Name(name) => self.registry.set_activator(id, name).unwrap(),
            Brought::Entries(entries) => drop(self.policy.put(Owner::Conn(id), entries).unwrap()),
        }
    }

    /// A connection leaves, and all that it has goes.
    fn leave(&mut self, id: ConnId)
        ensures { self.new ≡ without_conns self.old (id ∷ []) }
    {
        remove_conn(&mut self.conns, id);
        self.policy.drop_owner(Owner::Conn(id));
        self.registry.drop_conn(id);
        self.matches.drop_conn(id);
        self.seals.drop_conn(id);
        self.replies.drop_conn(id);
    }

    /// Connections leave, and all that they have goes.
    fn leave_all(&mut self, leavers: &[ConnId])
        ensures { self.new ≡ without_conns self.old leavers.now }
    {
        'leavers: for id in leavers {
            self.leave(*id);
        }
    }

    /// The seats of the connections on the endpoint are blocked.
    fn block_seats(&mut self, endpoint: u8)
        ensures { self.new
            ≡ record self.old {
              blocked = seat_set (self.old.blocked ++ seats_on self.old.conns endpoint);
            } }
    {
        mark_seats(&mut self.gone, &self.conns, endpoint);
    }

    /// The endpoint goes with its entries and every connection on it, and their seats are blocked
    /// until their own callers know.
    #[tactic(auto, unfolding(kd_commands::specs::Leaving::without_endpoint))]
    fn end_endpoint(&mut self, endpoint: u8, leavers: &[ConnId])
        requires leavers { leavers.now ≡ ids_of (on_endpoint self.old endpoint) }
        ensures { self.new ≡ without_endpoint self.old endpoint }
    {
        self.block_seats(endpoint);
        self.leave_all(leavers);
        self.endpoints.remove(endpoint);
        self.policy.drop_owner(Owner::Endpoint(endpoint));
    }

    /// The seat is free again.
    fn unblock(&mut self, seat: Seat)
        ensures { self.new ≡ unblocked seat self.old }
    {
        let place = usize::from(seat.0);
        if place < SEATS {
            self.gone[place] = false;
        }
    }

    /// A connection claims a name, and takes over the requests that an activator was to answer.
    #[tactic(auto, unfolding(kd_commands::specs::Names::with_claim))]
    fn acquire(&mut self, id: ConnId, flags: NameFlags, name: Text, verdict: Verdict)
        requires answer { asked self.old.registry id name flags ≡ Ok verdict }
        requires room { length self.old.registry < 4160 }
        ensures { self.new ≡ with_claim self.old id flags name verdict }
    {
        self.registry.acquire(id, name, flags).unwrap();
        if let Verdict::Owner {
            activator: Some(old),
            ..
        } = verdict
        {
            self.replies.rename(old, id);
        }
    }

    /// A request waits for its reply.
    #[tactic(auto, unfolding(crate::specs::Drafts::applied, crate::specs::Drafts::Fits))]
    fn expect(&mut self, request: Request)
        requires fits { Fits self.old (Change.Expects request) }
        ensures { self.new ≡ applied (Change.Expects request) self.old }
    {
        self.replies.expect(request).unwrap();
    }

    /// A connection has a seal more.
    #[tactic(auto, unfolding(crate::specs::Drafts::applied, crate::specs::Drafts::Fits))]
    fn seal(&mut self, id: ConnId, sealed: Sealed)
        requires fits { Fits self.old (Change.Seals id sealed) }
        ensures { self.new ≡ applied (Change.Seals id sealed) self.old }
    {
        self.seals.seal(id, sealed).unwrap();
    }

    /// A connection has a rule more.
    #[tactic(auto, unfolding(crate::specs::Drafts::applied, crate::specs::Drafts::Fits))]
    fn add_rule(&mut self, id: ConnId, cookie: Cookie, conditions: Vec<Condition>, replace: bool)
        requires fits { Fits self.old (Change.AddsRule id cookie conditions replace) }
        ensures { self.new ≡ applied (Change.AddsRule id cookie conditions replace) self.old }
    {
        self.matches.add(id, cookie, conditions, replace).unwrap();
    }

    /// An owner has other policy entries; those that it had go.
    #[tactic(auto, unfolding(crate::specs::Drafts::applied, crate::specs::Drafts::Fits))]
    fn set_policy(&mut self, owner: Owner, entries: Vec<Entry>)
        requires fits { Fits self.old (Change.SetsPolicy owner entries) }
        ensures { self.new ≡ applied (Change.SetsPolicy owner entries) self.old }
    {
        drop(self.policy.put(owner, entries).unwrap());
    }

    /// There is an endpoint more, with its first entries.
    #[tactic(auto, unfolding(crate::specs::Drafts::applied, crate::specs::Drafts::Fits))]
    fn add_endpoint(&mut self, label: Text, number: u8, entries: Vec<Entry>)
        requires fits { Fits self.old (Change.AddsEndpoint label number entries) }
        ensures { self.new ≡ applied (Change.AddsEndpoint label number entries) self.old }
    {
        self.endpoints.add(label).unwrap();
        drop(self.policy.put(Owner::Endpoint(number), entries).unwrap());
    }

    /// The moment goes on, and the requests that are due go.
    fn pass(&mut self, now: Moment)
        ensures { self.new
            ≡ record self.old { moment = now; requests = but_those (is_due now) self.old.requests } }
    {
        self.moment = now;
        self.replies.expire(now);
    }

    /// A connection gives up its claim on a name.
    #[tactic(auto, unfolding(kd_commands::specs::Names::without_claim))]
    fn release(&mut self, id: ConnId, name: &Text)
        requires answer { (owner : ℕ) × (release_answer self.old.registry id name.now ≡ Ok owner) }
        ensures { self.new ≡ without_claim self.old id name.now }
    {
        self.registry.release(id, name.bytes()).unwrap();
    }
}
