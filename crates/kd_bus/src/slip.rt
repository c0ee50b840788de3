//! What an entry of a lock's list says. It is there in the proofs alone, and takes no memory.
ghost use Rattle.std.specs.Prelude.{◌≡◌, []};
ghost use Rattle.kd_acts.specs.State.{by_desk, publish, receive};
ghost use Rattle.kd_tables.specs.Drafts.{content_at};
ghost use Rattle.kd_pool.specs.Told.{receive_answer};
ghost use Rattle.kd_holds.specs.Handing.{answer_told, answers_told, visit_met};
ghost use Rattle.kd_holds.specs.Publishing as publishing;
ghost use Rattle.kd_histories.specs.Pools.{marked_numbers};
ghost use Rattle.kd_histories.specs.Turns.{did, idle, left, started};
ghost use Rattle.kd_wire.specs.declared.reply.Reply as reply;
ghost use Rattle.kd_bus.specs.Slips.{read_turn, turn_told, words_in};

use kd_bloom::Param;
use kd_desk::{Out, Part, Plan, Who, WhoKind};
use kd_holds::{Made, Pending, Published};
use kd_pool::{Got, RecvMode};
use kd_types::Refusal;
use kd_wire::{Command, Reply};
use std::marker::Model;
use std::snapshot::Snapshot;

/// A command that was carried out at the desk of the slot's bus of a generation.
#[derive(Drop)]
pub struct Leaving {
    pub generation: Snapshot<u64>,
    /// Of a HELLO or an ENDPOINT_MAKE, the bus at which its pass was aimed, if it was.
    pub aim: Snapshot<Option<u64>>,
    pub who: Snapshot<Who>,
    pub command: Snapshot<Command>,
    pub plan: Snapshot<Plan>,
    pub made: Snapshot<Made>,
    pub outs: Snapshot<Vec<Out>>,
    pub reply: Snapshot<Reply>,
    pub becomes: Snapshot<WhoKind>,
}

/// A command that the desk of the slot's bus of a generation refused, from who stays what it was.
#[derive(Drop)]
pub struct Refusing {
    pub generation: Snapshot<u64>,
    pub aim: Snapshot<Option<u64>>,
    pub who: Snapshot<Who>,
    pub command: Snapshot<Command>,
    pub why: Snapshot<Refusal>,
    pub becomes: Snapshot<WhoKind>,
}

/// A bus that began, with its generation, by the user who made it.
#[derive(Drop)]
pub struct Beginning {
    pub generation: Snapshot<u64>,
    pub creator: Snapshot<u32>,
    pub param: Snapshot<Param>,
}

/// A visit of a pool of a generation by the holder of the desk: the marks that it swept, the part
/// at its place of the plan, what the pool answered, and what was drained then.
#[derive(Drop)]
pub struct Visiting {
    pub generation: Snapshot<u64>,
    pub marks: Snapshot<[u64; 4]>,
    pub part: Snapshot<Part>,
    pub plan: Snapshot<Plan>,
    pub index: Snapshot<usize>,
    pub made: Snapshot<Made>,
    pub out: Snapshot<Out>,
}

/// A publishing at a pool of a generation, and what became of it.
#[derive(Drop)]
pub struct Publishing {
    pub generation: Snapshot<u64>,
    pub pending: Snapshot<Pending>,
    pub published: Snapshot<Published>,
}

/// A receive from a pool of a generation, and what it got.
#[derive(Drop)]
pub struct Receiving {
    pub generation: Snapshot<u64>,
    pub mode: Snapshot<RecvMode>,
    pub got: Snapshot<Result<Got, Refusal>>,
}

/// A read at a pool of a generation, and what it read.
#[derive(Drop)]
pub struct Reading {
    pub generation: Snapshot<u64>,
    pub number: Snapshot<u32>,
    pub sealed: Snapshot<bool>,
    pub read: Snapshot<Result<Vec<u8>, Refusal>>,
}

/// A command as it was given, and by whom.
#[derive(Drop)]
pub struct Given {
    pub aim: Snapshot<Option<u64>>,
    pub who: Snapshot<Who>,
    pub command: Snapshot<Command>,
}

/// What one turn did. A value lives only until its slip is made.
#[derive(Drop)]
pub enum Note {
    Left(Leaving),
    Refused(Refusing),
    Started(Beginning),
    Visited(Visiting),
    Published(Publishing),
    Received(Receiving),
    Read(Reading),
    Idle,
}

/// An entry of a lock's list, seen as what the turn did.
#[derive(Drop)]
pub struct Slip {
    pub(crate) note: Snapshot<Note>,
}

impl Model for Slip {
    ghost use Rattle.kd_histories.specs.Turns as turns;
    ghost use Rattle.kd_bus.specs.Slips.{turn_told};

    ghost Value = { turns.Turn };

    ghost view = { λ s. turn_told s.note.value };
}

impl Slip {
    /// The entry of a turn that did this.
    pub(crate) fn of(note: Note) -> Slip
        ensures { result ≡ turn_told note }
    {
        Slip {
            note: Snapshot::of(&note),
        }
    }

    /// The entry of a turn that did nothing.
    pub(crate) fn idle() -> Slip
        ensures { result ≡ idle }
    {
        Slip::of(Note::Idle)
    }

    /// The entry of a command that was refused.
    pub(crate) fn refused(generation: u64, given: Given, why: &Refusal, was: &WhoKind) -> Slip
        ensures { result
            ≡ left (record {
              generation = generation;
              aim = given.aim.value;
              who = given.who.value;
              command = given.command.value;
              outs = [];
              reply = reply.Reply.Refused why.now;
              becomes = was.now;
            }) }
    {
        Slip::of(Note::Refused(Refusing {
            generation: Snapshot::of(&generation),
            aim: given.aim,
            who: given.who,
            command: given.command,
            why: Snapshot::of(why),
            becomes: Snapshot::of(was),
        }))
    }

    /// The entry of a command that was carried out.
    pub(crate) fn left(
        generation: u64,
        given: Given,
        plan: Snapshot<Plan>,
        made: &Made,
        outs: &Vec<Out>,
        reply: &Reply,
        becomes: &WhoKind,
    ) -> Slip
        ensures { result
            ≡ left (record {
              generation = generation;
              aim = given.aim.value;
              who = given.who.value;
              command = given.command.value;
              outs = answers_told plan.value.parts outs.now.items made.now.drained;
              reply = reply.now;
              becomes = becomes.now;
            }) }
    {
        Slip::of(Note::Left(Leaving {
            generation: Snapshot::of(&generation),
            aim: given.aim,
            who: given.who,
            command: given.command,
            plan,
            made: Snapshot::of(made),
            outs: Snapshot::of(outs),
            reply: Snapshot::of(reply),
            becomes: Snapshot::of(becomes),
        }))
    }

    /// The entry of a bus that begins.
    pub(crate) fn started(generation: u64, creator: u32, param: &Param) -> Slip
        ensures { result
            ≡ started (record {
              generation = generation;
              creator = creator;
              size = param.now.size;
              hashes = param.now.hashes;
            }) }
    {
        Slip::of(Note::Started(Beginning {
            generation: Snapshot::of(&generation),
            creator: Snapshot::of(&creator),
            param: Snapshot::of(param),
        }))
    }

    /// The entry of a visit.
    pub(crate) fn visited(
        generation: u64,
        marks: &[u64; 4],
        part: &Part,
        plan: &Plan,
        index: usize,
        made: &Made,
        out: &Out,
    ) -> Slip
        ensures { result
            ≡ did (record {
              generation = generation;
              freed = marked_numbers (words_in marks.now);
              act =
                  by_desk
                  (visit_met (content_at index plan.now.contents) part.now made.now.drained);
              answer = answer_told part.now out.now made.now.drained;
            }) }
    {
        Slip::of(Note::Visited(Visiting {
            generation: Snapshot::of(&generation),
            marks: Snapshot::of(marks),
            part: Snapshot::of(part),
            plan: Snapshot::of(plan),
            index: Snapshot::of(&index),
            made: Snapshot::of(made),
            out: Snapshot::of(out),
        }))
    }

    /// The entry of a publishing.
    pub(crate) fn published(
        generation: u64,
        pending: Snapshot<Pending>,
        published: &Published,
    ) -> Slip
        ensures { result
            ≡ did (record {
              generation = generation;
              freed = [];
              act = publish pending.value.generation pending.value.number pending.value.content;
              answer = publishing.publish_answer published.now;
            }) }
    {
        Slip::of(Note::Published(Publishing {
            generation: Snapshot::of(&generation),
            pending,
            published: Snapshot::of(published),
        }))
    }

    /// The entry of a receive.
    pub(crate) fn received(generation: u64, mode: RecvMode, got: &Result<Got, Refusal>) -> Slip
        ensures { result
            ≡ did (record {
              generation = generation;
              freed = [];
              act = receive mode;
              answer = receive_answer got.now;
            }) }
    {
        Slip::of(Note::Received(Receiving {
            generation: Snapshot::of(&generation),
            mode: Snapshot::of(&mode),
            got: Snapshot::of(got),
        }))
    }

    /// The entry of a read; that of a turn that did nothing where memory was wanted.
    pub(crate) fn read(
        generation: u64,
        number: u32,
        sealed: bool,
        read: &Result<Vec<u8>, Refusal>,
    ) -> Slip
        ensures { result ≡ read_turn generation number sealed read.now }
    {
        Slip::of(Note::Read(Reading {
            generation: Snapshot::of(&generation),
            number: Snapshot::of(&number),
            sealed: Snapshot::of(&sealed),
            read: Snapshot::of(read),
        }))
    }
}
