//! What a command placed is pending until its pass publishes it.
ghost use Rattle.std.specs.Prelude.{◌≡◌, ◌<◌, ◌≤◌, ◌+◌, ◌∷◌, ◌++◌, List, drop, get_or, length, unwrap_or, vec_capacity, vec_len};
ghost use Rattle.kd_tables.specs.Drafts.{content_at, empty_content, without_content};
ghost use Rattle.kd_tables.specs.declared.part.Part as code;
ghost use Rattle.kd_holds.specs.Placed.{IsSpent, offer_placed};
ghost use Rattle.kd_bus.specs.Leaving.{all_pending, pending_at};

use kd_desk::{Content, Out, Part, Plan};
use kd_holds::Pending;
use kd_types::{Seat, SliceNo};
use std::alloc::Global;

/// The seat of an offer that was placed, and the slice that was reserved there.
fn reserved(part: &Part, out: &Out) -> Option<(Seat, SliceNo)>
    ensures { result ≡ offer_placed part.now out.now }
{
    match part {
        Part::Offer { seat, .. } => match out {
            Out::Slice(number) => Some((*seat, *number)),
            _ => None,
        },
        _ => None,
    }
}

/// The content of the offer at a place, moved out; an empty one where it was taken before.
fn take_content(alloc: Global, plan: &mut Plan, index: usize) -> Content
    ensures content { result ≡ unwrap_or (content_at index plan.old.contents) empty_content }
    ensures plan { plan.new ≡ without_content index plan.old }
{
    match plan.content(index) {
        Some(content) => content,
        None => Content::empty(alloc),
    }
}

/// The generation at a place.
fn generation_at(generations: &[u64], index: usize) -> u64
    ensures { result ≡ get_or generations.now index 0 }
{
    match generations.get(index) {
        Some(generation) => *generation,
        None => 0,
    }
}

/// What was placed for the part at this place is pending.
fn keep(pendings: &mut Vec<Pending>, plan: &mut Plan, index: usize, out: &Out, generation: u64)
    requires room { vec_len pendings.old < vec_capacity pendings.old }
    requires inside { index < length plan.old.parts }
    ensures pendings { (p : code.Part) (rest : List code.Part)
        → drop index plan.old.parts ≡ p ∷ rest
        → pendings.new.items
        ≡ pendings.old.items
        ++ pending_at generation (content_at index plan.old.contents) (offer_placed p out.now) }
    ensures len { vec_len pendings.new ≤ vec_len pendings.old + 1 }
    ensures room { vec_capacity pendings.old ≤ vec_capacity pendings.new }
    ensures plan { plan.new ≡ without_content index plan.old }
{
    let placed = reserved(&plan.parts()[index], out);
    let content = take_content(*pendings.allocator(), plan, index);
    if let Some((seat, number)) = placed {
        pendings
            .push(Pending {
                seat,
                generation,
                number,
                content,
            })
            .unwrap();
    }
}

/// What was placed for all parts that were visited is pending, in their order; each with the
/// generation that its pool had.
pub(crate) fn keep_all(
    pendings: &mut Vec<Pending>,
    plan: &mut Plan,
    outs: &[Out],
    generations: &[u64],
)
    requires room { vec_len pendings.old + length outs.now ≤ vec_capacity pendings.old }
    requires visited { length outs.now ≤ length plan.old.parts }
    requires generations { length generations.now ≡ length outs.now }
    ensures pendings { pendings.new.items
        ≡ pendings.old.items
        ++ all_pending plan.old.contents plan.old.parts outs.now generations.now }
    ensures plan { IsSpent plan.old plan.new }
{
    'outs: for index in 0..outs.len() {
        let generation = generation_at(generations, index);
        keep(pendings, plan, index, &outs[index], generation);
    }
}
