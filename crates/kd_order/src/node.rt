//! The nodes of the vector, and the writes that change one of them or link two.

ghost use Rattle.std.specs.Prelude.{◌≡◌, ◌<◌, slice_index, slice_set, vec_len};
ghost use Rattle.kd_order.specs.Chains.{nexts, previouses, priorities};

use kd_model::SLICES;
use kd_rings::HEAD;

/// A slice's node in order of priority is this number and its own.
pub const RANKS: u32 = HEAD + 1;

/// How many nodes there are.
pub const NODES: u32 = RANKS + SLICES;

/// A priority, and the numbers of the nodes before and behind the node. Only the nodes in order of
/// priority have one of their own.
#[derive(Clone, Copy, Debug)]
pub struct Node {
    pub previous: u32,
    pub next: u32,
    pub priority: i64,
}

/// Links a node behind another.
pub fn link(nodes: &mut Vec<Node>, place: u32, number: u32)
    requires place { place < vec_len nodes.old }
    requires number { number < vec_len nodes.old }
    requires next { slice_index (nexts nodes.old.items) place < vec_len nodes.old }
    ensures len { vec_len nodes.new ≡ vec_len nodes.old }
    ensures nexts { let next = slice_index (nexts nodes.old.items) place in
        nexts nodes.new.items ≡ slice_set (slice_set (nexts nodes.old.items) number next) place number }
    ensures previous { let next = slice_index (nexts nodes.old.items) place in
        previouses nodes.new.items
        ≡ slice_set (slice_set (previouses nodes.old.items) number place) next number }
    ensures priorities { priorities nodes.new.items ≡ priorities nodes.old.items }
{
    let next = nodes[place as usize].next;
    set_next(nodes, number, next);
    set_previous(nodes, number, place);
    set_next(nodes, place, number);
    set_previous(nodes, next, number);
}

/// Links the nodes beside one with one another.
pub fn unlink(nodes: &mut Vec<Node>, number: u32)
    requires number { number < vec_len nodes.old }
    requires next { slice_index (nexts nodes.old.items) number < vec_len nodes.old }
    requires previous { slice_index (previouses nodes.old.items) number < vec_len nodes.old }
    ensures len { vec_len nodes.new ≡ vec_len nodes.old }
    ensures nexts { let next = slice_index (nexts nodes.old.items) number in
        let previous = slice_index (previouses nodes.old.items) number in
        nexts nodes.new.items ≡ slice_set (nexts nodes.old.items) previous next }
    ensures previous { let next = slice_index (nexts nodes.old.items) number in
        let previous = slice_index (previouses nodes.old.items) number in
        previouses nodes.new.items ≡ slice_set (previouses nodes.old.items) next previous }
    ensures priorities { priorities nodes.new.items ≡ priorities nodes.old.items }
{
    let Node { previous, next, .. } = nodes[number as usize];
    set_next(nodes, previous, next);
    set_previous(nodes, next, previous);
}

/// Names the node behind one.
pub fn set_next(nodes: &mut Vec<Node>, number: u32, next: u32)
    requires inside { number < vec_len nodes.old }
    ensures len { vec_len nodes.new ≡ vec_len nodes.old }
    ensures nexts { nexts nodes.new.items ≡ slice_set (nexts nodes.old.items) number next }
    ensures previous { previouses nodes.new.items ≡ previouses nodes.old.items }
    ensures priorities { priorities nodes.new.items ≡ priorities nodes.old.items }
{
    nodes[number as usize].next = next;
}

/// Names the node before one.
pub fn set_previous(nodes: &mut Vec<Node>, number: u32, previous: u32)
    requires inside { number < vec_len nodes.old }
    ensures len { vec_len nodes.new ≡ vec_len nodes.old }
    ensures nexts { nexts nodes.new.items ≡ nexts nodes.old.items }
    ensures previous { previouses nodes.new.items ≡ slice_set (previouses nodes.old.items) number previous }
    ensures priorities { priorities nodes.new.items ≡ priorities nodes.old.items }
{
    nodes[number as usize].previous = previous;
}

/// Gives a node another priority.
pub fn set_priority(nodes: &mut Vec<Node>, number: u32, priority: i64)
    requires inside { number < vec_len nodes.old }
    ensures len { vec_len nodes.new ≡ vec_len nodes.old }
    ensures nexts { nexts nodes.new.items ≡ nexts nodes.old.items }
    ensures previous { previouses nodes.new.items ≡ previouses nodes.old.items }
    ensures priorities { priorities nodes.new.items ≡ slice_set (priorities nodes.old.items) number priority }
{
    nodes[number as usize].priority = priority;
}
