//! Who has taken the desk.

ghost use Rattle.std.specs.Prelude.{◌≡◌, ◌<◌, ◌+◌, ◌-◌, ◌^◌, ◌∷◌, ◌++◌, [], IfOk, List, OnErr, OnOk, drop, length, option_map, vec_capacity, vec_len};
ghost use Rattle.std.specs.List.{AllByRecursion};
ghost use Rattle.std.specs.Borrow.{Bor};
ghost use Rattle.kd_tables.specs.Drafts.{IsVisitable, seat_in};
ghost use Rattle.kd_tables.specs.declared.part.Part as code;
ghost use Rattle.kd_holds.specs.Ahead.{part_ahead};
ghost use Rattle.kd_holds.specs.Counts.{IsBelow};
ghost use Rattle.kd_holds.specs.Handing.{IsMadeFor};
ghost use Rattle.kd_holds.specs.Visits.{HasVisited, IsReady, IsSameHolder, IsVisited};

use crate::hold::Hold;
use crate::made::Made;
use crate::pools;
use kd_desk::{Out, Part, Plan, Who};
use kd_types::{Creds, Refusal, Seat};
use kd_wire::Command;
use std::alloc::AllocError;
use std::snapshot::Snapshot;

/// The caller that holds the desk, with its command: what was planned, and what the pools answered
/// so far.
#[derive(Drop)]
pub struct Holder {
    /// Its number.
    pub caller: u64,
    /// Who it was when it took the desk.
    pub who: Who,
    /// What it took the desk with.
    pub command: Snapshot<Command>,
    /// Who it is by its own word when the command is done.
    pub creds: Creds,
    /// What the command comes to.
    pub plan: Plan,
    /// The memory that its visits use, and what they drained.
    pub made: Made,
    /// By the order of the parts.
    pub outs: Vec<Out>,
}

/// Puts an answer behind the others, for which there is room. What an answer may hold is named: the
/// borrow checker asks for it.
fn keep(outs: &mut Vec<Out>, out: &Out)
    requires room { vec_len outs.old < vec_capacity outs.old }
    ensures { outs.new.items ≡ outs.old.items ++ out.now ∷ [] }
{
    let _why: Option<Refusal> = None;
    outs.push(*out).unwrap();
}

/// Visits the part of a plan that has no answer yet, which then has one.
fn visit_part(
    plan: &Plan,
    made: &mut Made,
    outs: &mut Vec<Out>,
    pools: &mut Vec<Hold>,
) -> Result<Out, AllocError>
    requires left { length outs.old.items < length plan.now.parts }
    requires parts { AllByRecursion IsVisitable plan.now.parts }
    requires made { IsMadeFor made.old (drop (length outs.old.items) plan.now.parts) }
    requires counts { AllByRecursion (IsBelow (2 ^ 63 - 1)) pools.old.items }
    ensures outs { IfOk result (λ out. outs.new.items ≡ outs.old.items ++ out ∷ []) }
    ensures made { OnOk result
        (IsMadeFor made.new (drop (length outs.old.items + 1) plan.now.parts)) }
    ensures pools { IfOk result (λ out.
        (p : code.Part) (rest : List code.Part)
        → drop (length outs.old.items) plan.now.parts ≡ p ∷ rest
        → IsVisited p pools.old.items pools.new.items out made.old.drained made.new.drained) }
    ensures outs_same { OnErr result (outs.new.items ≡ outs.old.items) }
    ensures made_same { OnErr result (made.new ≡ made.old) }
    ensures pools_same { OnErr result (pools.new.items ≡ pools.old.items) }
{
    outs.reserve(1)?;
    let part = &plan.parts()[outs.len()];
    let out = pools::visit(pools, part, made);
    keep(outs, &out);
    Ok(out)
}

impl Holder {
    /// The part that is visited next; None where the first one ended all, or none is left.
    pub fn next_part(&self) -> Option<&Part>
        ensures { option_map (λ (p : Bor code.Part). p.now) result
            ≡ part_ahead self.now.plan self.now.outs.items }
    {
        if self.plan.refusal(&self.outs).is_some() {
            return None;
        }
        self.plan.parts().get(self.outs.len())
    }

    /// Its seat.
    pub fn next_seat(&self) -> Option<Seat>
        ensures { result ≡ option_map seat_in (part_ahead self.now.plan self.now.outs.items) }
    {
        match self.next_part() {
            Some(part) => Some(part.seat()),
            None => None,
        }
    }

    /// Visits its next part.
    pub fn visit(&mut self, pools: &mut Vec<Hold>) -> Result<Out, AllocError>
        requires ready { IsReady self.old }
        requires counts { AllByRecursion (IsBelow (2 ^ 63 - 1)) pools.old.items }
        ensures holder { IfOk result (HasVisited self.old self.new) }
        ensures pools { IfOk result (λ out.
            (p : code.Part) (rest : List code.Part)
            → drop (length self.old.outs.items) self.old.plan.parts ≡ p ∷ rest
            → IsVisited p pools.old.items pools.new.items out self.old.made.drained
            self.new.made.drained) }
        ensures same { OnErr result (IsSameHolder self.old self.new) }
        ensures pools_same { OnErr result (pools.new.items ≡ pools.old.items) }
    {
        visit_part(&self.plan, &mut self.made, &mut self.outs, pools)
    }
}
