//! Two rings of numbers in one vector, by arrival and by priority.

ghost use Rattle.std.specs.Prelude.{◌≡◌, ◌<◌, ◌∷◌, ◌++◌, ◌==◌, [], IfOk, IsTrue, false, length, replicate, slice_index_or, slice_set};
ghost use Rattle.kd_model.specs.Words.{but_those, contains};
ghost use Rattle.kd_rings.specs.Rings.{AreRings, before, behind, foremost, order, put_behind};
ghost use Rattle.kd_order.specs.Chains.{Chained, lowest, nexts, previouses, priorities};
ghost use Rattle.kd_rings.specs.declared.heads.TheConstants.{HEAD, START};
ghost use Rattle.kd_order.specs.declared.node.TheConstants.{NODES};

use crate::node::{NODES, Node, link, set_next, set_previous, set_priority, unlink};
use kd_rings::{HEAD, START};
use std::alloc::{AllocError, Global};
use std::marker::Model;

/// The numbers of slices behind the start, and those of their priorities behind the head, linked in
/// both directions, in one vector that never grows.
#[derive(Debug, Drop)]
pub struct Chain {
    nodes: Vec<Node>,
}

impl Model for Chain {
    ghost Value = { Chained };

    ghost view = { λ c. record {
      arrivals = order START (nexts c.nodes.items);
      ranks = order HEAD (nexts c.nodes.items);
      priorities = priorities c.nodes.items;
    } };

    ghost invariant = { λ c. AreRings (nexts c.nodes.items) (previouses c.nodes.items) };
}

impl Chain {
    /// A chain of no numbers.
    pub fn make(alloc: Global) -> Result<Chain, AllocError>
        ensures arrivals { IfOk result (λ c. c.arrivals ≡ []) }
        ensures ranks { IfOk result (λ c. c.ranks ≡ []) }
        ensures priorities { IfOk result (λ c. c.priorities ≡ replicate NODES lowest) }
    {
        let node = Node {
            previous: START,
            next: START,
            priority: i64::MIN,
        };
        let mut nodes = vec![in alloc; node; NODES as usize]?;
        set_next(&mut nodes, HEAD, HEAD);
        set_previous(&mut nodes, HEAD, HEAD);
        Ok(Chain { nodes })
    }

    /// The slice that came behind another or the start, `None` where it is the last.
    pub fn later(&self, number: u32) -> Option<u32>
        requires { IsTrue (contains number (START ∷ self.now.arrivals)) }
        ensures { result ≡ foremost (behind number START self.now.arrivals) }
    {
        let next = self.nodes[number as usize].next;
        if next == START { None } else { Some(next) }
    }

    /// What ranks behind another or the head, `None` where it is the last.
    pub fn less_urgent(&self, number: u32) -> Option<u32>
        requires { IsTrue (contains number (HEAD ∷ self.now.ranks)) }
        ensures { result ≡ foremost (behind number HEAD self.now.ranks) }
    {
        let next = self.nodes[number as usize].next;
        if next == HEAD { None } else { Some(next) }
    }

    /// What ranks before another, the last before the head, the head where there is none.
    pub fn more_urgent(&self, number: u32) -> u32
        requires { IsTrue (contains number (HEAD ∷ self.now.ranks)) }
        ensures { result ≡ before number HEAD self.now.ranks }
    {
        self.nodes[number as usize].previous
    }

    /// The priority of a number.
    pub fn priority(&self, number: u32) -> i64
        requires { number < length self.now.priorities }
        ensures { result ≡ slice_index_or self.now.priorities number lowest }
    {
        self.nodes[number as usize].priority
    }

    /// Lets a new slice come behind all others.
    pub fn arrive(&mut self, number: u32)
        requires new { contains number self.old.arrivals ≡ false }
        requires low { number < START }
        requires inside { number < length self.old.priorities }
        ensures arrivals { self.new.arrivals ≡ self.old.arrivals ++ number ∷ [] }
        ensures ranks { self.new.ranks ≡ self.old.ranks }
        ensures priorities { self.new.priorities ≡ self.old.priorities }
    {
        let last = self.nodes[START as usize].previous;
        link(&mut self.nodes, last, number);
    }

    /// Takes a slice out of the order of arrival.
    pub fn leave(&mut self, number: u32)
        requires { IsTrue (contains number self.old.arrivals) }
        ensures arrivals { self.new.arrivals ≡ but_those (λ k. k == number) self.old.arrivals }
        ensures ranks { self.new.ranks ≡ self.old.ranks }
        ensures priorities { self.new.priorities ≡ self.old.priorities }
    {
        unlink(&mut self.nodes, number);
    }

    /// Ranks a new number behind another or the head, and gives it a priority.
    pub fn put_ranked(&mut self, place: u32, number: u32, priority: i64)
        requires place { IsTrue (contains place (HEAD ∷ self.old.ranks)) }
        requires number { contains number (HEAD ∷ self.old.ranks) ≡ false }
        requires high { HEAD < number }
        requires inside { number < length self.old.priorities }
        ensures arrivals { self.new.arrivals ≡ self.old.arrivals }
        ensures ranks { self.new.ranks ≡ put_behind place number HEAD self.old.ranks }
        ensures priorities { self.new.priorities ≡ slice_set self.old.priorities number priority }
    {
        link(&mut self.nodes, place, number);
        set_priority(&mut self.nodes, number, priority);
    }

    /// Takes a number out of the order of priority. It keeps its own.
    pub fn take_ranked(&mut self, number: u32)
        requires { IsTrue (contains number self.old.ranks) }
        ensures arrivals { self.new.arrivals ≡ self.old.arrivals }
        ensures ranks { self.new.ranks ≡ but_those (λ k. k == number) self.old.ranks }
        ensures priorities { self.new.priorities ≡ self.old.priorities }
    {
        unlink(&mut self.nodes, number);
    }

    /// Takes all numbers out. Each keeps its priority.
    pub fn clear(&mut self)
        ensures arrivals { self.new.arrivals ≡ [] }
        ensures ranks { self.new.ranks ≡ [] }
        ensures priorities { self.new.priorities ≡ self.old.priorities }
    {
        set_next(&mut self.nodes, START, START);
        set_previous(&mut self.nodes, START, START);
        set_next(&mut self.nodes, HEAD, HEAD);
        set_previous(&mut self.nodes, HEAD, HEAD);
    }
}
