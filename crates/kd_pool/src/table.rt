//! The table of a pool's slices: its questions and its changes.

ghost use Rattle.std.specs.Prelude.{if◌then◌else◌, [], ◌∷◌, ◌≡◌, ◌<◌, ◌≤◌, ◌&&◌, Some, length, map, nat_lt, vec_capacity, vec_len};
ghost use Rattle.std.specs.List.{position};
ghost use Rattle.kd_model.specs.Words.{but_those, first, lesser, put_in_order, some_of};
ghost use Rattle.kd_acts.specs.Lasting.{is_handed};
ghost use Rattle.kd_acts.specs.State.{slot_numbered, is_freed, lies_lower, is_pending, is_pending_of, is_readable, is_waiting, queue_of, waiting_slots};
ghost use Rattle.kd_pool.specs.Table.{AreFound, HaveOwnNumbers, reserved_first};
ghost use Rattle.kd_acts.specs.Steps.{free_refusal, in_phase, length_reserved, now_queued, of_lower_number, over_quota};

use kd_acts::{Phase, Slot};
use kd_model::SliceNo;
use kd_order::Queue;
use kd_types::Refusal;

/// Whether a user's messages, with one of `len` bytes more, would take more than half of the pool
/// or more than 32 slices. Messages that their receiver took count no more.
pub fn is_over_quota(slots: &[Slot], size: usize, user: u32, len: u32) -> bool
    requires few { length slots.now ≤ 256 }
    ensures { result ≡ over_quota size slots.now user len }
{
    let mut bytes = u64::from(len);
    let mut count = 0usize;
    'slots: for slot in slots {
        if is_pending_of(slot, user) {
            bytes += u64::from(slot.len);
            count += 1;
        }
    }
    (size as u64) < 2 * bytes || 32 <= count
}

fn is_pending_of(slot: &Slot, user: u32) -> bool
    ensures { result ≡ is_pending_of user slot.now }
{
    matches!(slot.phase, Phase::Reserved | Phase::Queued | Phase::Peeked) && slot.user == Some(user)
}

/// Whether a message waits for its receiver in this slot.
pub fn is_waiting(slot: &Slot) -> bool
    ensures { result ≡ is_waiting slot.now }
{
    matches!(slot.phase, Phase::Queued | Phase::Peeked)
}

/// Whether a slice is on its way to its receiver.
pub fn some_pending(slots: &[Slot]) -> bool
    ensures { result ≡ some_of is_pending slots.now }
{
    slots.iter().any(|slot| matches!(slot.phase, Phase::Reserved | Phase::Queued | Phase::Peeked))
}

/// The reserved slot of the lowest number.
pub fn lowest_reserved(slots: &[Slot]) -> Option<Slot>
    ensures { result ≡ reserved_first slots.now }
{
    let mut best = None;
    'slots: for slot in slots {
        best = lower_reserved(best, *slot);
    }
    best
}

/// The one of the lower number of the best so far and a slot, if that is reserved.
fn lower_reserved(best: Option<Slot>, slot: Slot) -> Option<Slot>
    ensures { result ≡ lesser of_lower_number best (reserved_first (slot ∷ [])) }
{
    if !matches!(slot.phase, Phase::Reserved) {
        return best;
    }
    match best {
        Some(other) if !(slot.number.0 < other.number.0) => Some(other),
        _ => Some(slot),
    }
}

/// The slot of a number.
pub fn find(slots: &[Slot], number: SliceNo) -> Option<Slot>
    ensures { result ≡ first (slot_numbered number) slots.now }
{
    slots.iter().copied().find(|slot| slot.number == number)
}

/// The length of a reserved slice, `None` for any other number.
pub fn reserved_length(slots: &[Slot], number: SliceNo) -> Option<u32>
    ensures { result ≡ length_reserved (first (slot_numbered number) slots.now) }
{
    let slot = find(slots, number)?;
    if slot.phase == Phase::Reserved {
        Some(slot.len)
    } else {
        None
    }
}

/// The slot of a number, where its receiver may read it.
pub fn find_readable(slots: &[Slot], number: SliceNo) -> Option<Slot>
    ensures { result ≡ first (λ s. slot_numbered number s && is_readable s) slots.now }
{
    slots.iter().copied().find(|slot| slot.number == number
        && matches!(slot.phase, Phase::Peeked | Phase::Handed))
}

/// Whether the slice of a number is received and not given back.
pub fn is_handed(slots: &[Slot], number: SliceNo) -> bool
    ensures { result ≡ some_of (λ s. slot_numbered number s && is_handed s) slots.now }
{
    slots.iter().any(|slot| slot.number == number && matches!(slot.phase, Phase::Handed))
}

/// Why the receiver can't free a number, if it can't.
#[tactic(auto, unfolding(kd_acts::specs::Steps::free_refusal))]
pub fn why_not_freed(slots: &[Slot], number: SliceNo) -> Option<Refusal>
    ensures { result ≡ free_refusal number slots.now }
{
    match find(slots, number) {
        None => Some(Refusal::NoSuchSlice),
        Some(slot) => match slot.phase {
            Phase::Handed => None,
            Phase::Peeked => Some(Refusal::NotReceived),
            Phase::Reserved | Phase::Queued | Phase::Freed => Some(Refusal::NoSuchSlice),
        },
    }
}

/// Puts a slot in front of the first one that lies behind it.
pub fn put(slots: &mut Vec<Slot>, new: Slot)
    requires room { vec_len slots.old < vec_capacity slots.old }
    ensures items { slots.new.items ≡ put_in_order lies_lower new slots.old.items }
    ensures room { vec_capacity slots.old ≤ vec_capacity slots.new }
{
    let at = first_behind(slots, new.offset).unwrap_or(slots.len());
    slots.insert(at, new).unwrap();
}

/// The place of the first slot that lies behind an offset.
fn first_behind(slots: &[Slot], offset: u32) -> Option<usize>
    ensures { result ≡ position (λ s. nat_lt offset s.offset) slots.now }
{
    slots.iter().position(|slot| offset < slot.offset)
}

/// Takes the slot of a number out.
pub fn take_out(slots: &mut Vec<Slot>, number: SliceNo)
    ensures items { slots.new.items ≡ but_those (slot_numbered number) slots.old.items }
    ensures room { vec_capacity slots.new ≡ vec_capacity slots.old }
{
    slots.retain(|slot| !(slot.number == number));
}

/// Takes all freed slots out.
pub fn take_out_freed(slots: &mut Vec<Slot>)
    ensures items { slots.new.items ≡ but_those is_freed slots.old.items }
    ensures room { vec_capacity slots.new ≡ vec_capacity slots.old }
{
    slots.retain(|slot| !is_freed(slot));
}

/// Takes all slots out that wait.
pub fn take_out_waiting(slots: &mut Vec<Slot>)
    ensures items { slots.new.items ≡ but_those is_waiting slots.old.items }
    ensures room { vec_capacity slots.new ≡ vec_capacity slots.old }
{
    slots.retain(|slot| !is_waiting(slot));
}

/// Puts the slots of all that waits in a queue into an empty table, in the queue's order, and takes
/// them out of the queue.
pub fn move_queued(rows: &mut Vec<Slot>, slots: &[Slot], queue: &mut Queue)
    requires empty { rows.old.items ≡ [] }
    requires room { length slots.now ≤ vec_capacity rows.old }
    requires found { AreFound slots.now }
    requires apart { HaveOwnNumbers slots.now }
    requires queued { queue.old ≡ queue_of slots.now }
    ensures items { rows.new.items ≡ waiting_slots slots.now }
    ensures room { vec_capacity rows.old ≤ vec_capacity rows.new }
    ensures queue { queue.new ≡ [] }
{
    'waiting: while let Some(number) = queue.next(None) {
        let Some(slot) = find(slots, number) else {
            unreachable!();
        };
        rows.push(slot).unwrap();
        queue.take(number);
    }
}

/// Whether a slice waits for the next sweep.
pub fn is_freed(slot: &Slot) -> bool
    ensures { result ≡ is_freed slot.now }
{
    matches!(slot.phase, Phase::Freed)
}

/// Brings the slot of a number into a phase.
pub fn set_phase(slots: &mut Vec<Slot>, number: SliceNo, phase: Phase)
    ensures items { slots.new.items ≡ map (in_phase phase number) slots.old.items }
    ensures room { vec_capacity slots.new ≡ vec_capacity slots.old }
{
    'slots: for i in 0..slots.len() {
        slots[i] = in_phase(slots[i], number, phase);
    }
}

fn in_phase(slot: Slot, number: SliceNo, phase: Phase) -> Slot
    ensures { result ≡ in_phase phase number slot }
{
    if slot.number == number {
        Slot { phase, ..slot }
    } else {
        slot
    }
}

/// Queues the slot of a number as the next to arrive.
pub fn set_queued(slots: &mut Vec<Slot>, number: SliceNo, priority: i64, arrival: u64)
    ensures items { slots.new.items ≡ map (now_queued number priority arrival) slots.old.items }
    ensures room { vec_capacity slots.new ≡ vec_capacity slots.old }
{
    'slots: for i in 0..slots.len() {
        slots[i] = now_queued(slots[i], number, priority, arrival);
    }
}

fn now_queued(slot: Slot, number: SliceNo, priority: i64, arrival: u64) -> Slot
    ensures { result ≡ now_queued number priority arrival slot }
{
    if slot.number == number {
        Slot {
            phase: Phase::Queued,
            priority,
            arrival,
            ..slot
        }
    } else {
        slot
    }
}
