//! A run of the bus: two passes, each in a thread of its own.
ghost use Rattle.std.specs.Prelude.{◌≡◌, ℕ, ◌+◌, ◌*◌, ◌^◌, ◌<◌, ◌≤◌, true, length, IfOk, IfSome};
ghost use Rattle.kd_hands.specs.Views.{part};
ghost use Rattle.kd_toy_bus.specs.Bus.{IsBetweenCalls, is_seated};
ghost use Rattle.kd_toy_bus.specs.Run.{HasAll};

use crate::bus::{join, leave, open, receive, release, send};
use crate::locked::Locked;
use crate::passes::{both, two_of, values_of};
use kd_turn::gate::Gate;
use kd_turn::pass::Pass;
use std::alloc::{AllocError, Global};
use std::sync::Wait;
use std::thread;
use std::thread::Threads;

/// Receives so many times, and gives back what came. The pass has seat 0.
fn receives<R: Wait>(
    rt: &R,
    gate: &Gate<Locked>,
    mut pass: Pass<Locked>,
    rounds: u32,
) -> Pass<Locked>
    requires idle { IsBetweenCalls gate.now pass }
    requires seated { is_seated 0 (part pass.view 0).own ≡ true }
    requires turns { pass.view.turns + rounds ≤ 2 ^ 43 }
    ensures idle { IsBetweenCalls gate.now result }
    ensures desk { part result.view 0 ≡ part pass.view 0 }
    ensures received { length (part result.view 1).own ≡ length (part pass.view 1).own + rounds }
    ensures turns { result.view.turns ≡ pass.view.turns + rounds }
    ensures name { result.view.name ≡ pass.view.name }
{
    'receiving: for round in 0..rounds {
        if receive(rt, gate, &mut pass, 0) {
            release(gate, &mut pass, 0);
        }
    }
    pass
}

/// Sends to seat 0 so many times.
fn sends<R: Wait>(rt: &R, gate: &Gate<Locked>, mut pass: Pass<Locked>, rounds: u32) -> Pass<Locked>
    requires idle { IsBetweenCalls gate.now pass }
    requires turns { pass.view.turns + 2 * rounds ≤ 2 ^ 43 }
    ensures idle { IsBetweenCalls gate.now result }
    ensures sent { length (part result.view 0).own ≡ length (part pass.view 0).own + rounds }
    ensures name { result.view.name ≡ pass.view.name }
{
    'sending: for round in 0..rounds {
        send(rt, gate, &mut pass, 0);
    }
    pass
}

/// One thread receives, and another sends.
fn both_run<R: Threads + Wait + Sync>(
    rt: &R,
    gate: &Gate<Locked>,
    member: Pass<Locked>,
    sender: Pass<Locked>,
    rounds: u32,
) -> (Pass<Locked>, Pass<Locked>)
    requires member { IsBetweenCalls gate.now member × (member.view.turns ≤ 2) }
    requires seated { is_seated 0 (part member.view 0).own ≡ true }
    requires sender { IsBetweenCalls gate.now sender × (sender.view.turns ≡ 0) }
    ensures member { IsBetweenCalls gate.now result.0 × (result.0.view.name ≡ member.view.name) }
    ensures desk { part result.0.view 0 ≡ part member.view 0 }
    ensures received { length (part result.0.view 1).own
        ≡ length (part member.view 1).own + rounds }
    ensures turns { result.0.view.turns ≤ 2 + rounds }
    ensures sender { IsBetweenCalls gate.now result.1 × (result.1.view.name ≡ sender.view.name) }
    ensures sent { length (part result.1.view 0).own ≡ length (part sender.view 0).own + rounds }
{
    let receiving = || -> Pass<Locked>
        requires idle { IsBetweenCalls gate.now member × (member.view.turns ≤ 2) }
        requires seated { is_seated 0 (part member.view 0).own ≡ true }
        ensures idle { IsBetweenCalls gate.entry.now result }
        ensures name { result.view.name ≡ member.view.name }
        ensures desk { part result.view 0 ≡ part member.view 0 }
        ensures received { length (part result.view 1).own
            ≡ length (part member.view 1).own + rounds }
        ensures turns { result.view.turns ≤ 2 + rounds }
    { receives(rt, gate, member, rounds) };
    let sending = || -> Pass<Locked>
        requires idle { IsBetweenCalls gate.now sender × (sender.view.turns ≡ 0) }
        ensures idle { IsBetweenCalls gate.entry.now result }
        ensures name { result.view.name ≡ sender.view.name }
        ensures sent { length (part result.view 0).own ≡ length (part sender.view 0).own + rounds }
    { sends(rt, gate, sender, rounds) };
    thread::join(rt, receiving, sending)
}

/// A bus of two passes: the first takes seat 0, receives so many times and leaves, while the second
/// sends as many times. The values in the end; none where the seat wasn't free.
pub fn run<R: Threads + Wait + Sync>(
    rt: &R,
    alloc: Global,
    rounds: u32,
) -> Result<Option<Vec<Locked>>, AllocError>
    ensures all { IfOk result (λ o. IfSome o (λ values. HasAll rounds values.items)) }
{
    let (gate, passes) = open(alloc, 2)?;
    let (mut member, sender) = two_of(&gate, passes);
    let joined = join(rt, &gate, &mut member, 0);
    if !joined {
        return Ok(None);
    }
    let (mut member, sender) = both_run(rt, &gate, member, sender, rounds);
    leave(rt, &gate, &mut member, 0);
    let passes = both(alloc, &gate, member, sender)?;
    let values = values_of(alloc, gate, passes)?;
    Ok(Some(values))
}
