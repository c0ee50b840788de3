//! Two rings of numbers in one vector, each number with a span.

ghost use Rattle.std.specs.Prelude.{◌≡◌, ◌<◌, ◌==◌, ◌∷◌, [], IfOk, IsTrue, false, length, replicate, slice_index_or, slice_set};
ghost use Rattle.kd_rings.specs.Rings.{AreRings, before, behind, foremost, order, put_behind};
ghost use Rattle.kd_links.specs.Chains.{Chained, no_span, nexts, previouses, spans};
ghost use Rattle.kd_rings.specs.declared.heads.TheConstants.{HEAD, START};
ghost use Rattle.kd_links.specs.declared.node.TheConstants.{NODES};
ghost use Rattle.kd_model.specs.Words.{but_those, contains};

use crate::node::{NODES, Node, Span, link, set_next, set_previous, set_span, unlink};
use kd_rings::{HEAD, START};
use std::alloc::{AllocError, Global};
use std::marker::Model;

/// The numbers of slices behind the start, and those of gaps behind the head, linked in both
/// directions, in one vector that never grows.
#[derive(Debug, Drop)]
pub struct Chain {
    nodes: Vec<Node>,
}

impl Model for Chain {
    ghost Value = { Chained };

    ghost view = { λ c. record {
      order = order START (nexts c.nodes.items);
      gaps = order HEAD (nexts c.nodes.items);
      spans = spans c.nodes.items;
    } };

    ghost invariant = { λ c. AreRings (nexts c.nodes.items) (previouses c.nodes.items) };
}

impl Chain {
    /// A chain of no numbers.
    pub fn make(alloc: Global) -> Result<Chain, AllocError>
        ensures order { IfOk result (λ c. c.order ≡ []) }
        ensures gaps { IfOk result (λ c. c.gaps ≡ []) }
        ensures spans { IfOk result (λ c. c.spans ≡ replicate NODES no_span) }
    {
        let node = Node {
            previous: START,
            next: START,
            span: Span { offset: 0, len: 0 },
        };
        let mut nodes = vec![in alloc; node; NODES as usize]?;
        set_next(&mut nodes, HEAD, HEAD);
        set_previous(&mut nodes, HEAD, HEAD);
        Ok(Chain { nodes })
    }

    /// The slice behind another, `None` where it is the last.
    pub fn next(&self, number: u32) -> Option<u32>
        requires { IsTrue (contains number (START ∷ self.now.order)) }
        ensures { result ≡ foremost (behind number START self.now.order) }
    {
        let next = self.nodes[number as usize].next;
        if next == START { None } else { Some(next) }
    }

    /// The slice before another, or the start.
    pub fn previous(&self, number: u32) -> u32
        requires { IsTrue (contains number self.now.order) }
        ensures { result ≡ before number START self.now.order }
    {
        self.nodes[number as usize].previous
    }

    /// The gap behind another, `None` where it is the last.
    pub fn larger(&self, number: u32) -> Option<u32>
        requires { IsTrue (contains number (HEAD ∷ self.now.gaps)) }
        ensures { result ≡ foremost (behind number HEAD self.now.gaps) }
    {
        let next = self.nodes[number as usize].next;
        if next == HEAD { None } else { Some(next) }
    }

    /// The gap before another or before the head, the head where there is none.
    pub fn smaller(&self, number: u32) -> u32
        requires { IsTrue (contains number (HEAD ∷ self.now.gaps)) }
        ensures { result ≡ before number HEAD self.now.gaps }
    {
        self.nodes[number as usize].previous
    }

    /// The span of a number: no bytes for one that has no node.
    pub fn span(&self, number: u32) -> Span
        ensures { result ≡ slice_index_or self.now.spans number no_span }
    {
        if number as usize >= self.nodes.len() {
            return Span { offset: 0, len: 0 };
        }
        self.nodes[number as usize].span
    }

    /// The span of a number that has a node.
    pub fn span_inside(&self, number: u32) -> Span
        requires { number < length self.now.spans }
        ensures { result ≡ slice_index_or self.now.spans number no_span }
    {
        self.nodes[number as usize].span
    }

    /// The span of a gap or the head.
    pub fn gap_span(&self, number: u32) -> Span
        requires { IsTrue (contains number (HEAD ∷ self.now.gaps)) }
        ensures { result ≡ slice_index_or self.now.spans number no_span }
    {
        self.nodes[number as usize].span
    }

    /// Puts a new slice behind another or the start, and gives it a span.
    pub fn put_behind(&mut self, place: u32, number: u32, span: Span)
        requires place { IsTrue (contains place (START ∷ self.old.order)) }
        requires number { contains number (START ∷ self.old.order) ≡ false }
        requires low { number < START }
        requires inside { number < length self.old.spans }
        ensures order { self.new.order ≡ put_behind place number START self.old.order }
        ensures gaps { self.new.gaps ≡ self.old.gaps }
        ensures spans { self.new.spans ≡ slice_set self.old.spans number span }
    {
        link(&mut self.nodes, place, number);
        set_span(&mut self.nodes, number, span);
    }

    /// Takes a slice out. Its span has no bytes from then on.
    pub fn take_out(&mut self, number: u32)
        requires { IsTrue (contains number self.old.order) }
        ensures order { self.new.order ≡ but_those (λ k. k == number) self.old.order }
        ensures gaps { self.new.gaps ≡ self.old.gaps }
        ensures spans { self.new.spans ≡ slice_set self.old.spans number no_span }
    {
        unlink(&mut self.nodes, number);
        set_span(&mut self.nodes, number, Span { offset: 0, len: 0 });
    }

    /// Puts a new gap behind another or the head, and gives it a span.
    pub fn file_behind(&mut self, place: u32, number: u32, span: Span)
        requires place { IsTrue (contains place (HEAD ∷ self.old.gaps)) }
        requires number { contains number (HEAD ∷ self.old.gaps) ≡ false }
        requires high { HEAD < number }
        requires inside { number < length self.old.spans }
        ensures order { self.new.order ≡ self.old.order }
        ensures gaps { self.new.gaps ≡ put_behind place number HEAD self.old.gaps }
        ensures spans { self.new.spans ≡ slice_set self.old.spans number span }
    {
        link(&mut self.nodes, place, number);
        set_span(&mut self.nodes, number, span);
    }

    /// Takes a gap out, which keeps its span.
    pub fn unfile(&mut self, number: u32)
        requires { IsTrue (contains number self.old.gaps) }
        ensures order { self.new.order ≡ self.old.order }
        ensures gaps { self.new.gaps ≡ but_those (λ k. k == number) self.old.gaps }
        ensures spans { self.new.spans ≡ self.old.spans }
    {
        unlink(&mut self.nodes, number);
    }
}
