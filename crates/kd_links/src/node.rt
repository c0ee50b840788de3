//! The nodes of the vector, and the writes that change one of them or link two.

ghost use Rattle.std.specs.Prelude.{◌≡◌, ◌<◌, slice_index, slice_set, vec_len};
ghost use Rattle.kd_links.specs.Chains.{nexts, previouses, spans};

use kd_rings::{HEAD, START};

/// The gap behind a slice or the start is the node of this number and its own.
pub const GAPS: u32 = HEAD + 1;

/// The first number of the marks, one for each bin.
pub const MARKS: u32 = GAPS + START + 1;

/// How many bins there are: the last begins at the size of the largest pool.
pub const BINS: u32 = 18;

/// How many nodes there are.
pub const NODES: u32 = MARKS + BINS;

/// A range of the pool: `len` bytes from `offset` on. That of an unused number has no bytes.
#[derive(Clone, Copy, Debug, PartialEq, Eq)]
pub struct Span {
    pub offset: u32,
    pub len: u32,
}

/// A span, and the numbers of the nodes before and behind it.
#[derive(Clone, Copy, Debug)]
pub struct Node {
    pub previous: u32,
    pub next: u32,
    pub span: Span,
}

/// Links a node behind another.
pub fn link(nodes: &mut Vec<Node>, place: u32, number: u32)
    requires place { place < vec_len nodes.old }
    requires number { number < vec_len nodes.old }
    requires next { slice_index (nexts nodes.old.items) place < vec_len nodes.old }
    ensures len { vec_len nodes.new ≡ vec_len nodes.old }
    ensures nexts { let next = slice_index (nexts nodes.old.items) place in
        nexts nodes.new.items ≡ slice_set (slice_set (nexts nodes.old.items) number next) place number }
    ensures previous { let next = slice_index (nexts nodes.old.items) place in
        previouses nodes.new.items
        ≡ slice_set (slice_set (previouses nodes.old.items) number place) next number }
    ensures spans { spans nodes.new.items ≡ spans nodes.old.items }
{
    let next = nodes[place as usize].next;
    set_next(nodes, number, next);
    set_previous(nodes, number, place);
    set_next(nodes, place, number);
    set_previous(nodes, next, number);
}

/// Links the nodes beside one with one another.
pub fn unlink(nodes: &mut Vec<Node>, number: u32)
    requires number { number < vec_len nodes.old }
    requires next { slice_index (nexts nodes.old.items) number < vec_len nodes.old }
    requires previous { slice_index (previouses nodes.old.items) number < vec_len nodes.old }
    ensures len { vec_len nodes.new ≡ vec_len nodes.old }
    ensures nexts { let next = slice_index (nexts nodes.old.items) number in
        let previous = slice_index (previouses nodes.old.items) number in
        nexts nodes.new.items ≡ slice_set (nexts nodes.old.items) previous next }
    ensures previous { let next = slice_index (nexts nodes.old.items) number in
        let previous = slice_index (previouses nodes.old.items) number in
        previouses nodes.new.items ≡ slice_set (previouses nodes.old.items) next previous }
    ensures spans { spans nodes.new.items ≡ spans nodes.old.items }
{
    let Node { previous, next, .. } = nodes[number as usize];
    set_next(nodes, previous, next);
    set_previous(nodes, next, previous);
}

/// Names the node behind one.
pub fn set_next(nodes: &mut Vec<Node>, number: u32, next: u32)
    requires inside { number < vec_len nodes.old }
    ensures len { vec_len nodes.new ≡ vec_len nodes.old }
    ensures nexts { nexts nodes.new.items ≡ slice_set (nexts nodes.old.items) number next }
    ensures previous { previouses nodes.new.items ≡ previouses nodes.old.items }
    ensures spans { spans nodes.new.items ≡ spans nodes.old.items }
{
    nodes[number as usize].next = next;
}

/// Names the node before one.
pub fn set_previous(nodes: &mut Vec<Node>, number: u32, previous: u32)
    requires inside { number < vec_len nodes.old }
    ensures len { vec_len nodes.new ≡ vec_len nodes.old }
    ensures nexts { nexts nodes.new.items ≡ nexts nodes.old.items }
    ensures previous { previouses nodes.new.items ≡ slice_set (previouses nodes.old.items) number previous }
    ensures spans { spans nodes.new.items ≡ spans nodes.old.items }
{
    nodes[number as usize].previous = previous;
}

/// Gives a node another span.
pub fn set_span(nodes: &mut Vec<Node>, number: u32, span: Span)
    requires inside { number < vec_len nodes.old }
    ensures len { vec_len nodes.new ≡ vec_len nodes.old }
    ensures nexts { nexts nodes.new.items ≡ nexts nodes.old.items }
    ensures previous { previouses nodes.new.items ≡ previouses nodes.old.items }
    ensures spans { spans nodes.new.items ≡ slice_set (spans nodes.old.items) number span }
{
    nodes[number as usize].span = span;
}
