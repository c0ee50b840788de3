//! The holder of the desk visits the pools of a plan.
ghost use Rattle.std.specs.Prelude.{◌≡◌, ◌≢◌, ◌<◌, ◌≤◌, ◌^◌, ◌+◌, ℕ, List, Option, None, true, false, length, vec_capacity, [], ◌∷◌};
ghost use Rattle.std.specs.List.{AllByRecursion};
ghost use Rattle.kd_acts.specs.State.{raise};
ghost use Rattle.kd_acts.specs.State as state;
ghost use Rattle.kd_tables.specs.declared.part.Part as code;
ghost use Rattle.kd_tables.specs.Drafts.{IsVisitable, content_at, part_with, parts_with, seat_in};
ghost use Rattle.kd_tables.specs.Outs.{why_ended};
ghost use Rattle.kd_hands.specs.Lists.{is_marked};
ghost use Rattle.kd_hands.specs.Views.{part};
ghost use Rattle.kd_holds.specs.Handing.{IsDrainedBy, IsMadeFor, answer_told, answers_told, visit_met};
ghost use Rattle.kd_histories.specs.Slots.{part_behind};
ghost use Rattle.kd_histories.specs.Seats.{sitter};
ghost use Rattle.kd_histories.specs.Pools.{hold_freed, marked_numbers, visit_sweeps};
ghost use Rattle.kd_bus.specs.Visited.{HasDesk, HasSeat, HasSwept, HasVisit, RaisesFree, VisitedAll};
ghost use Rattle.kd_bus.specs.Slips.{words_in};

use crate::bus::lock_of;
use crate::locked::Locked;
use crate::slip::Slip;
use kd_desk::{Out, Part, Plan};
use kd_holds::{Hold, Made};
use kd_turn::gate::Gate;
use kd_turn::pass::Pass;
use std::sync::Wait;

/// Whether a number is marked.
fn has_mark(marks: &[u64; 4], number: u32) -> bool
    requires { number < 256 }
    ensures { result ≡ is_marked number (words_in marks.now) }
{
    (marks[(number / 64) as usize] >> (number % 64)) % 2 == 1
}

/// Frees the slices that are marked.
fn free_marked(hold: &mut Hold, marks: &[u64; 4])
    ensures { hold.new ≡ hold_freed (marked_numbers (words_in marks.now)) hold.old }
{
    'freeing: for number in 0..256u32 {
        if has_mark(marks, number) {
            hold.free(number);
        }
    }
}

/// Whether a visit sweeps the marks of its pool: one that needs room, or opens it.
fn sweeps(part: &Part) -> bool
    ensures { (content : Option state.Content)
        → (drained : Option state.Batch)
        → result ≡ visit_sweeps (visit_met content part.now drained) }
{
    match part {
        Part::Close { .. } | Part::Drain { .. } => false,
        Part::Raise { .. } | Part::Offer { .. } | Part::Post { .. } | Part::Settle { .. } => true,
    }
}

/// The marks of the pool that is held, which are now clear; none where the visit sweeps none.
fn swept(gate: &Gate<Locked>, pass: &mut Pass<Locked>, lock: u32, sweeps: bool) -> [u64; 4]
    requires gate { pass.old.gate ≡ gate.now.id }
    requires lock { lock < gate.now.locks }
    requires held { (part pass.old.view lock).holds ≡ true }
    requires bare { (part pass.old.view lock).swept ≡ [] }
    ensures gate { pass.new.gate ≡ pass.old.gate }
    ensures held { pass.new.held ≡ pass.old.held }
    ensures swept { HasSwept lock sweeps result pass.old.view pass.new.view }
{
    if !sweeps {
        return [0; 4];
    }
    pass.sweep(gate, lock)
}

/// What a pool answered to a visit, and the generation that it had.
#[derive(Clone, Copy)]
pub(crate) struct Answered {
    pub(crate) out: Out,
    pub(crate) generation: u64,
}

/// Visits the pool of the part at this place of a plan.
pub(crate) fn visit<R: Wait>(
    rt: &R,
    gate: &Gate<Locked>,
    pass: &mut Pass<Locked>,
    asked: &Part,
    plan: &Plan,
    index: usize,
    made: &mut Made,
) -> Answered
    requires desk { HasDesk gate.now pass.old }
    requires visitable { IsVisitable asked.now }
    requires seat { seat_in asked.now < 64 }
    requires ready { (rest : List code.Part) × IsMadeFor made.old (asked.now ∷ rest) }
    requires raised { (size : ℕ)
        → (part_with (content_at index plan.now.contents) asked.now).act ≡ raise size
        → sitter (seat_in asked.now) (part pass.old.view 0).seen ≡ None }
    requires turns { pass.old.view.turns < 2 ^ 43 }
    ensures desk { HasDesk gate.now pass.new }
    ensures visit { HasVisit (seat_in asked.now)
        (visit_met (content_at index plan.now.contents) asked.now made.new.drained)
        (answer_told asked.now result.out made.new.drained)
        result.generation pass.old.view pass.new.view }
    ensures drained { IsDrainedBy asked.now result.out made.old.drained made.new.drained }
    ensures made { (rest : List code.Part) → IsMadeFor made.old (asked.now ∷ rest)
        → IsMadeFor made.new rest }
{
    let lock = lock_of(asked.seat());
    let Locked::Pool(mut hold) = pass.take(rt, gate, lock) else {
        unreachable!()
    };
    let marks = swept(gate, pass, lock, sweeps(asked));
    let generation = hold.generation();
    free_marked(&mut hold, &marks);
    let out = hold.visit(asked, made);
    let slip = Slip::visited(generation, &marks, asked, plan, index, made, &out);
    pass.put(gate, lock, Locked::Pool(hold), slip);
    Answered { out, generation }
}

/// Visits what a plan asks for, part by part, until the first has ended all.
pub(crate) fn visit_all<R: Wait>(
    rt: &R,
    gate: &Gate<Locked>,
    pass: &mut Pass<Locked>,
    plan: &Plan,
    made: &mut Made,
    outs: &mut Vec<Out>,
    generations: &mut Vec<u64>,
)
    requires desk { HasDesk gate.now pass.old }
    requires parts { AllByRecursion IsVisitable plan.now.parts }
    requires seats { AllByRecursion HasSeat plan.now.parts }
    requires made { IsMadeFor made.old plan.now.parts }
    requires none { made.old.drained ≡ None }
    requires outs { (outs.old.items ≡ []) × (length plan.now.parts ≤ vec_capacity outs.old) }
    requires generations { (generations.old.items ≡ [])
        × (length plan.now.parts ≤ vec_capacity generations.old) }
    requires raised { RaisesFree (parts_with plan.now.contents plan.now.parts)
        (part pass.old.view 0).seen }
    requires turns { pass.old.view.turns + length plan.now.parts ≤ 2 ^ 43 }
    ensures desk { HasDesk gate.now pass.new }
    ensures counts { (length outs.new.items ≤ length plan.now.parts)
        × (length generations.new.items ≡ length outs.new.items) }
    ensures first { why_ended plan.now outs.new.items ≢ None → length outs.new.items ≤ 1 }
    ensures all { part_behind (parts_with plan.now.contents plan.now.parts)
        (answers_told plan.now.parts outs.new.items made.new.drained) ≡ None }
    ensures visited { VisitedAll (parts_with plan.now.contents plan.now.parts)
        (answers_told plan.now.parts outs.new.items made.new.drained)
        generations.new.items pass.old.view pass.new.view }
{
    'visiting: for index in 0..plan.parts().len() {
        if plan.refusal(outs).is_some() {
            return;
        }
        let asked = &plan.parts()[index];
        let answered = visit(rt, gate, pass, asked, plan, index, made);
        outs.push_reserved(answered.out);
        generations.push_reserved(answered.generation);
    }
}
