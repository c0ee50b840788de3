//! The memory that a plan's visits use, made beforehand.

ghost use Rattle.std.specs.Prelude.{◌≡◌, ◌≢◌, ◌≤◌, [], ◌∷◌, ◌++◌, IfOk, None, OnErr, length};
ghost use Rattle.std.specs.List.{AllByRecursion};
ghost use Rattle.kd_model.specs.declared.slice_no.TheConstants.{SLICES};
ghost use Rattle.kd_acts.specs.Steps.{drain_step};
ghost use Rattle.kd_tables.specs.Drafts.{IsVisitable};
ghost use Rattle.kd_holds.specs.Handing.{AreInOrder, HasBuffer, HasDrained, HasRoom, IsBuffer, IsMadeFor, IsSmall, Stock, drain_told, images_of};
ghost use Rattle.kd_holds.specs.Stack.{stack_of};
ghost use Rattle.kd_pool.specs.Told.{drained_into};

use kd_desk::{Out, Part, Plan};
use kd_pool::{Drained, LARGEST, Pool};
use kd_types::Refusal;
use std::alloc::{AllocError, Global};
use std::marker::Model;
use std::snapshot::Snapshot;

/// The memory that the visits of one plan use, taken before the first of them: a pool for each part
/// that opens one, and a buffer where messages are handed over. Of what was drained it keeps a
/// snapshot, which the answers tell.
#[derive(Drop)]
pub struct Made {
    /// The next one is the last.
    raised: Vec<Pool>,
    /// What was drained, until it settles.
    buffer: Option<Drained>,
    drained: Snapshot<Option<Drained>>,
}

impl Model for Made {
    ghost Value = { Stock };

    ghost view = { λ m.
        record { raised = m.raised.items; buffer = m.buffer; drained = m.drained.value } };
}

/// All pools that parts open, the next one last.
fn pools_of(alloc: Global, parts: &[Part]) -> Result<Vec<Pool>, AllocError>
    requires each { AllByRecursion IsVisitable parts.now }
    requires small { AllByRecursion IsSmall parts.now }
    ensures { IfOk result (λ pools. pools.items ≡ stack_of parts.now) }
{
    let mut raised = Vec::new(alloc);
    'parts: for part in parts {
        if let Part::Raise { size, .. } = part {
            raised.push(Pool::make(alloc, *size)?)?;
        }
    }
    raised.reverse();
    Ok(raised)
}

/// The buffer of parts that hand messages over: it has room for what any pool has, since the pool
/// is looked at by its drain alone.
fn buffer_of(alloc: Global, parts: &[Part]) -> Result<Option<Drained>, AllocError>
    ensures { IfOk result (λ buffer. HasBuffer buffer None parts.now) }
{
    match parts.first() {
        Some(Part::Drain { .. } | Part::Settle { .. }) => {
            Ok(Some(Drained::make(alloc, LARGEST)?))
        }
        _ => Ok(None),
    }
}

/// Nothing was drained so far.
fn nothing() -> Snapshot<Option<Drained>>
    ensures { result.value ≡ None }
{
    let nothing: Option<Drained> = None;
    Snapshot::of(&nothing)
}

/// Drains a pool into an empty buffer with room for any.
fn drain_into(pool: &mut Pool, buffer: &mut Drained) -> Result<(), Refusal>
    requires empty { buffer.old.images ≡ [] }
    requires room { LARGEST ≤ buffer.old.size }
    ensures state { pool.new ≡ (drain_step pool.old).0 }
    ensures answer { drained_into result buffer.new.images ≡ (drain_step pool.old).1 }
    ensures few { length buffer.new.images ≤ SLICES }
    ensures err { OnErr result (buffer.new.images ≡ []) }
{
    buffer.narrow(pool.size());
    pool.drain(buffer)
}

impl Made {
    /// All that the visits of a plan need.
    pub fn of(alloc: Global, plan: &Plan) -> Result<Made, AllocError>
        requires each { AllByRecursion IsVisitable plan.now.parts }
        requires order { AreInOrder plan.now.parts }
        ensures made { IfOk result (λ m. IsMadeFor m plan.now.parts) }
        ensures none { IfOk result (λ m. m.drained ≡ None) }
    {
        Ok(Made {
            raised: pools_of(alloc, plan.parts())?,
            buffer: buffer_of(alloc, plan.parts())?,
            drained: nothing(),
        })
    }

    /// The pool that is opened next, moved out.
    pub(crate) fn take(&mut self) -> Pool
        requires { self.old.raised ≢ [] }
        ensures pool { self.old.raised ≡ self.new.raised ++ result ∷ [] }
        ensures others { self.new ≡ record self.old { raised = self.new.raised } }
    {
        let Some(pool) = self.raised.pop() else {
            unreachable!();
        };
        pool
    }

    /// Drains a pool, whose messages it keeps until they settle.
    pub(crate) fn drain(&mut self, pool: &mut Pool) -> Out
        requires room { HasRoom self.old.buffer self.old.drained }
        ensures pool { pool.new ≡ (drain_step pool.old).0 }
        ensures answer { drain_told result self.new.drained ≡ (drain_step pool.old).1 }
        ensures kept { HasDrained result self.old self.new }
    {
        let Some(buffer) = &mut self.buffer else {
            unreachable!();
        };
        if let Err(why) = drain_into(pool, buffer) {
            return Out::Refused(why);
        }
        self.drained = Snapshot::of(&self.buffer);
        Out::Done
    }

    /// What was drained, moved out.
    pub(crate) fn take_drained(&mut self) -> Drained
        requires buffer { IsBuffer 0 (images_of self.old.drained) self.old.buffer }
        ensures images { result.images ≡ images_of self.old.drained }
        ensures others { self.new ≡ record self.old { buffer = None } }
    {
        let Some(buffer) = self.buffer.take() else {
            unreachable!();
        };
        buffer
    }
}
