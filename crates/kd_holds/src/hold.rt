//! A pool with its generation.

ghost use Rattle.std.specs.Prelude.{◌≡◌, ◌≢◌, ◌-◌, ◌^◌, ◌∷◌, IfErr, IfOk, IsTrue, List, None, Option, ℕ, length, true};
ghost use Rattle.kd_acts.specs.State.{by_desk, bytes_of, free, publish, read, receive, refused};
ghost use Rattle.kd_acts.specs.Lasting.{is_handed_in};
ghost use Rattle.kd_acts.specs.Steps.{after, answer, is_awaited, new_pool};
ghost use Rattle.kd_acts.specs.State as state;
ghost use Rattle.kd_pool.specs.Told.{receive_answer};
ghost use Rattle.kd_tables.specs.Drafts.{IsLength, IsVisitable};
ghost use Rattle.kd_tables.specs.Outs.{out_answer};
ghost use Rattle.kd_tables.specs.declared.part.Part as code;
ghost use Rattle.kd_holds.specs.Counts.{IsBelow};
ghost use Rattle.kd_world.specs.Hands.{hand_received};
ghost use Rattle.kd_world.specs.State.{closed_pool};
ghost use Rattle.kd_world.specs.Agreed.{IsSoundHold, used_in};
ghost use Rattle.kd_holds.specs.Publishing as publishing;
ghost use Rattle.kd_holds.specs.Handing.{HasDrained, HasRoom, IsDrainedBy, IsMadeFor, answer_told, drain_told, visit_met};

use crate::hand::Hand;
use crate::made::Made;
use crate::opened;
use crate::pending::{Pending, Published};
use kd_desk::{Out, Part};
use kd_pool::{Drained, Got, Pool, RecvMode};
use kd_types::{ConnId, Refusal, SliceNo};
use kd_world::Told;
use std::alloc::Global;
use std::marker::Model;

/// A pool with its generation: it is closed or open, and each opening and each closing begins the
/// next generation.
#[derive(Debug, Drop)]
pub struct Hold {
    generation: u64,
    pool: Option<Pool>,
}

impl Model for Hold {
    ghost Value = { state.Hold };

    ghost view = { λ h. record { generation = h.generation; pool = h.pool } };
}

impl Hold {
    /// A pool that was never open.
    pub fn closed() -> Hold
        ensures { result ≡ closed_pool }
    {
        Hold {
            generation: 0,
            pool: None,
        }
    }

    /// How often it was opened or closed.
    pub fn generation(&self) -> u64
        ensures { result ≡ self.now.generation }
    {
        self.generation
    }

    /// How many bytes all slices of its pool take, freed ones that aren't swept included; 0 where
    /// it is closed. An open pool is sound.
    pub fn used(&self) -> u32
        ensures sum { result ≡ used_in self.now }
        ensures sound { IsSoundHold self.now }
    {
        match &self.pool {
            None => 0,
            Some(pool) => pool.used(),
        }
    }

    /// Does what a part of a plan asks for: a settle places what was drained.
    #[tactic(auto, unfolding(kd_tables::specs::Drafts::IsVisitable))]
    pub fn visit(&mut self, part: &Part, made: &mut Made) -> Out
        requires visitable { IsVisitable part.now }
        requires ready { (rest : List code.Part) × IsMadeFor made.old (part.now ∷ rest) }
        requires counts { IsBelow (2 ^ 63 - 1) self.old }
        ensures after { (content : Option state.Content)
            → self.new ≡ after self.old (by_desk (visit_met content part.now made.new.drained)) }
        ensures answer { (content : Option state.Content)
            → answer_told part.now result made.new.drained
            ≡ answer self.old (by_desk (visit_met content part.now made.new.drained)) }
        ensures drained { IsDrainedBy part.now result made.old.drained made.new.drained }
        ensures made { (rest : List code.Part) → IsMadeFor made.old (part.now ∷ rest)
            → IsMadeFor made.new rest }
    {
        match part {
            Part::Raise { .. } => self.raise(made.take()),
            Part::Close { force, .. } => self.close(*force),
            Part::Offer {
                user,
                len,
                from,
                must,
                ..
            } => self.offer(*user, *len, *from, *must),
            Part::Post { image, .. } => self.post(image.bytes()),
            Part::Drain { .. } => self.drain(made),
            Part::Settle { .. } => self.settle(made.take_drained()),
        }
    }

    /// Opens it with an empty pool.
    #[tactic(auto, unfolding(kd_acts::specs::Steps::pool_step))]
    fn raise(&mut self, pool: Pool) -> Out
        requires counts { IsBelow (2 ^ 63 - 1) self.old }
        ensures after { (size : ℕ) → pool ≡ new_pool size
            → self.new ≡ after self.old (by_desk (state.raise size)) }
        ensures answer { (size : ℕ)
            → out_answer result ≡ answer self.old (by_desk (state.raise size)) }
    {
        self.pool = Some(pool);
        self.generation += 1;
        Out::Done
    }

    /// Whether messages wait in it, or are on their way into it.
    fn is_awaited(&self) -> bool
        ensures { result ≡ is_awaited self.now }
    {
        match &self.pool {
            None => false,
            Some(pool) => pool.waiting(),
        }
    }

    /// Closes it, without `force` only where no message waits.
    #[tactic(auto, unfolding(kd_acts::specs::Steps::pool_step))]
    fn close(&mut self, force: bool) -> Out
        requires counts { IsBelow (2 ^ 63 - 1) self.old }
        ensures after { self.new ≡ after self.old (by_desk (state.close force)) }
        ensures answer { out_answer result ≡ answer self.old (by_desk (state.close force)) }
    {
        if !force && self.is_awaited() {
            return Out::Refused(Refusal::MessagesQueued);
        }
        self.pool = None;
        self.generation += 1;
        Out::Done
    }

    /// Reserves a slice in it.
    #[tactic(auto, unfolding(kd_acts::specs::Steps::pool_step, kd_acts::specs::Steps::open_step, kd_acts::specs::Steps::visit_step, kd_acts::specs::Steps::closed_answer))]
    fn offer(&mut self, user: u32, len: u32, from: ConnId, must: bool) -> Out
        requires len { IsLength len }
        requires counts { IsBelow (2 ^ 63 - 1) self.old }
        ensures after { (content : state.Content)
            → self.new ≡ after self.old (by_desk (state.offer user len from must content)) }
        ensures answer { (content : state.Content)
            → out_answer result
            ≡ answer self.old (by_desk (state.offer user len from must content)) }
    {
        match &mut self.pool {
            None => Out::Done,
            Some(pool) => opened::offer(pool, user, len, from, must),
        }
    }

    /// Posts a notice into it.
    #[tactic(auto, unfolding(kd_acts::specs::Steps::pool_step, kd_acts::specs::Steps::open_step, kd_acts::specs::Steps::visit_step, kd_acts::specs::Steps::closed_answer))]
    fn post(&mut self, image: &[u8]) -> Out
        requires len { IsLength (length image.now) }
        requires counts { IsBelow (2 ^ 63 - 1) self.old }
        ensures after { self.new ≡ after self.old (by_desk (state.post image.now)) }
        ensures answer { out_answer result ≡ answer self.old (by_desk (state.post image.now)) }
    {
        match &mut self.pool {
            None => Out::Done,
            Some(pool) => opened::post(pool, image),
        }
    }

    /// Drains it.
    #[tactic(auto, unfolding(kd_acts::specs::Steps::pool_step, kd_acts::specs::Steps::open_step, kd_acts::specs::Steps::visit_step, kd_acts::specs::Steps::closed_answer))]
    fn drain(&mut self, made: &mut Made) -> Out
        requires room { HasRoom made.old.buffer made.old.drained }
        ensures after { self.new ≡ after self.old (by_desk state.drain) }
        ensures answer { drain_told result made.new.drained
            ≡ answer self.old (by_desk state.drain) }
        ensures kept { HasDrained result made.old made.new }
    {
        match &mut self.pool {
            None => Out::Done,
            Some(pool) => made.drain(pool),
        }
    }

    /// Places what was drained from another one.
    #[tactic(auto, unfolding(kd_acts::specs::Steps::pool_step, kd_acts::specs::Steps::open_step, kd_acts::specs::Steps::visit_step, kd_acts::specs::Steps::closed_answer))]
    fn settle(&mut self, from: Drained) -> Out
        requires counts { IsBelow (2 ^ 63 - 1) self.old }
        ensures after { self.new ≡ after self.old (by_desk (state.settle from.images)) }
        ensures answer { out_answer result ≡ answer self.old (by_desk (state.settle from.images)) }
    {
        match &mut self.pool {
            None => Out::Done,
            Some(pool) => opened::settle(pool, from),
        }
    }

    /// Writes a message into the slice that was reserved for it, and queues it; gone where its pool
    /// is closed, or has another generation, or where that slice isn't there any more.
    #[tactic(auto, unfolding(kd_acts::specs::Steps::pool_step, kd_acts::specs::Steps::open_step, kd_acts::specs::Steps::closed_answer))]
    pub fn publish(&mut self, pending: Pending) -> Published
        requires counts { IsBelow (2 ^ 63 - 1) self.old }
        ensures after { self.new
            ≡ after self.old (publish pending.generation pending.number pending.content) }
        ensures answer { publishing.publish_answer result
            ≡ answer self.old (publish pending.generation pending.number pending.content) }
    {
        if pending.generation != self.generation {
            return Published::Gone;
        }
        match &mut self.pool {
            None => Published::Gone,
            Some(pool) => opened::publish(pool, pending.number, pending.content),
        }
    }

    /// Takes the next message, and tells the hand what became of its slice. `WrongState` where the
    /// pool is closed.
    #[tactic(auto, unfolding(kd_acts::specs::Steps::pool_step, kd_acts::specs::Steps::open_step, kd_acts::specs::Steps::closed_answer))]
    pub fn receive(&mut self, hand: &mut Hand, mode: RecvMode) -> Result<Got, Refusal>
        requires { ¬ (IsTrue mode.peek × IsTrue mode.drop_it) }
        ensures after { self.new ≡ after self.old (receive mode) }
        ensures answer { receive_answer result ≡ answer self.old (receive mode) }
        ensures hand { hand.new ≡ hand_received mode (answer self.old (receive mode)) hand.old }
    {
        let got = match &mut self.pool {
            None => return Err(Refusal::WrongState),
            Some(pool) => pool.receive(mode)?,
        };
        let told = if mode.drop_it {
            None
        } else if mode.peek {
            Some(Told::Peeked)
        } else {
            Some(Told::Handed)
        };
        hand.put(got.number.0, told);
        Ok(got)
    }

    /// The bytes of a slice that its receiver was told, or of the share that it took along.
    /// `NoSuchSlice` for any other number, `NoSuchSeal` where it has no share, `WrongState` where
    /// the pool is closed.
    #[tactic(auto, unfolding(kd_acts::specs::Steps::pool_step, kd_acts::specs::Steps::open_step, kd_acts::specs::Steps::closed_answer))]
    pub fn read(&self, alloc: Global, number: u32, sealed: bool) -> Result<Vec<u8>, Refusal>
        ensures bytes { IfOk result (λ v. answer self.now (read number sealed) ≡ bytes_of v.items) }
        ensures refused { IfErr result (λ e.
            e ≢ Refusal.OutOfMemory → answer self.now (read number sealed) ≡ refused e) }
    {
        match &self.pool {
            None => Err(Refusal::WrongState),
            Some(pool) => pool.read(alloc, SliceNo(number), sealed),
        }
    }

    /// Whether the slice of a number is received and not given back; none is in a closed pool.
    pub fn is_handed(&self, number: u32) -> bool
        ensures { result ≡ is_handed_in number self.now }
    {
        match &self.pool {
            None => false,
            Some(pool) => pool.is_handed(SliceNo(number)),
        }
    }

    /// Closes it, whatever waits in it.
    #[tactic(auto, unfolding(kd_acts::specs::Steps::pool_step))]
    pub fn shut(&mut self)
        requires counts { IsBelow (2 ^ 63 - 1) self.old }
        ensures after { self.new ≡ after self.old (by_desk (state.close true)) }
        ensures answer { answer self.old (by_desk (state.close true)) ≡ state.done }
    {
        self.pool = None;
        self.generation += 1;
    }

    /// Gives a slice back that was received; nothing else is changed by it.
    #[tactic(auto, unfolding(kd_acts::specs::Steps::pool_step, kd_acts::specs::Steps::open_step, kd_acts::specs::Steps::closed_answer))]
    pub fn free(&mut self, number: u32)
        ensures { self.new ≡ after self.old (free number) }
    {
        if let Some(pool) = &mut self.pool {
            opened::free(pool, SliceNo(number));
        }
    }
}
