//! The book of buses.

ghost use Rattle.std.specs.Prelude.{◌≡◌, ◌<◌, ◌+◌, ◌^◌, IfOk, IfSome, option_map, position, is_some};
ghost use Rattle.kd_book.specs.Buses.{find_answer, free_slot, is_called, lowest_slot, make_answer, named_slot, no_buses, with_bus, without_bus};

use kd_name::{BusNameFault, bus_name_fault};
use kd_types::{Refusal, Text};
use std::alloc::{AllocError, Global};
use std::marker::Model;

/// How many buses a domain has at most: who asks for one more is refused.
pub const SLOTS: usize = 4;

/// Where a bus was found: its slot, and the slot's generation then.
#[derive(Clone, Copy, Debug, PartialEq, Eq)]
pub struct Found {
    /// The slot, below [`SLOTS`].
    pub slot: u8,
    /// The slot's generation, which is odd while the slot has a bus.
    pub generation: u64,
}

/// The buses of a domain. A contract sees the generation of each slot, and the name of its bus
/// where it has one.
#[derive(Debug, Drop)]
pub struct Book {
    generations: [u64; SLOTS],
    names: [Option<Text>; SLOTS],
}

impl Model for Book {
    ghost use Rattle.kd_book.specs.Buses.{Buses};

    ghost Value = { Buses };

    ghost view = { λ b. record { generations = b.generations; names = b.names } };
}

impl Book {
    /// The book of a new domain, which has no bus.
    pub fn make() -> Book
        ensures { result ≡ no_buses }
    {
        Book {
            generations: [0; SLOTS],
            names: [None, None, None, None],
        }
    }

    /// The slot that a new bus of the user is to have, the lowest without a bus. It is refused
    /// where the text is no label (`BadName`), where it doesn't begin with the user's number and a
    /// dash (`WrongPrefix`), where a bus has the name already (`BusExists`), and where all four
    /// slots have a bus (`TooMany`).
    #[tactic(auto, unfolding(crate::specs::Buses::make_answer, crate::specs::Buses::make_refusal, kd_name::specs::BusNames::bus_name_fault))]
    pub fn may_make(
        &self,
        alloc: Global,
        uid: u32,
        name: &[u8],
    ) -> Result<Result<u8, Refusal>, AllocError>
        ensures answer { IfOk result (λ answer. answer ≡ make_answer self.now uid name.now) }
        ensures slot { IfOk result (λ answer. IfOk answer (λ slot. slot < 4)) }
    {
        match bus_name_fault(alloc, uid, name)? {
            Some(BusNameFault::NoLabel) => return Ok(Err(Refusal::BadName)),
            Some(BusNameFault::WrongPrefix) => return Ok(Err(Refusal::WrongPrefix)),
            None => {}
        }
        if self.named_slot(name).is_some() {
            return Ok(Err(Refusal::BusExists));
        }
        match self.free_slot() {
            Some(slot) => Ok(Ok(slot as u8)),
            None => Ok(Err(Refusal::TooMany { limit: 4 })),
        }
    }

    /// Writes that the slot has a bus of this generation and name.
    #[tactic(auto, unfolding(crate::specs::Buses::with_bus))]
    pub fn enter(&mut self, slot: u8, generation: u64, name: Text)
        requires slot { slot < 4 }
        ensures { self.new ≡ with_bus self.old slot generation name }
    {
        self.generations[slot as usize] = generation;
        self.names[slot as usize] = Some(name);
    }

    /// Where the slot has this generation, writes that its bus is gone. Nothing happens where it
    /// has another.
    #[tactic(auto, unfolding(crate::specs::Buses::without_bus))]
    pub fn remove(&mut self, slot: u8, generation: u64)
        requires slot { slot < 4 }
        requires next { generation + 1 < 2 ^ 64 }
        ensures { self.new ≡ without_bus self.old slot generation }
    {
        if self.generations[slot as usize] == generation {
            self.generations[slot as usize] = generation + 1;
            self.names[slot as usize] = None;
        }
    }

    /// Where the bus with this name is, or without a name the lowest slot with a bus. Where there
    /// is none this is `NoSuchBus`, with the generation 0.
    #[tactic(auto, unfolding(crate::specs::Buses::find_answer))]
    pub fn find(&self, name: Option<&[u8]>) -> Result<Found, Refusal>
        ensures answer { result ≡ find_answer self.now (option_map (λ n. n.now) name.entry) }
        ensures slot { IfOk result (λ found. found.slot < 4) }
    {
        let slot = match name {
            Some(name) => self.named_slot(name),
            None => self.lowest_slot(),
        };
        match slot {
            Some(slot) => Ok(Found {
                slot: slot as u8,
                generation: self.generations[slot],
            }),
            None => Err(Refusal::NoSuchBus { generation: 0 }),
        }
    }

    /// The slot of the bus with this name.
    #[tactic(auto, unfolding(crate::specs::Buses::named_slot))]
    fn named_slot(&self, name: &[u8]) -> Option<usize>
        ensures slot { result ≡ named_slot self.now name.now }
        ensures inside { IfSome result (λ slot. slot < 4) }
    {
        self.names.iter().position(|own| is_called(own, name))
    }

    /// The lowest slot that has a bus.
    #[tactic(auto, unfolding(crate::specs::Buses::lowest_slot))]
    fn lowest_slot(&self) -> Option<usize>
        ensures slot { result ≡ lowest_slot self.now }
        ensures inside { IfSome result (λ slot. slot < 4) }
    {
        self.names.iter().position(|own| own.is_some())
    }

    /// The lowest slot that has none.
    #[tactic(auto, unfolding(crate::specs::Buses::free_slot))]
    fn free_slot(&self) -> Option<usize>
        ensures slot { result ≡ free_slot self.now }
        ensures inside { IfSome result (λ slot. slot < 4) }
    {
        self.names.iter().position(|own| own.is_none())
    }
}

/// Whether the slot's bus has this name.
fn is_called(own: &Option<Text>, name: &[u8]) -> bool
    ensures { result ≡ is_called name.now own.now }
{
    match own {
        Some(own) => own.bytes() == name,
        None => false,
    }
}
