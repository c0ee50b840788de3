//! The calls of a book over the chain.

ghost use Rattle.std.specs.Prelude.{◌≡◌, ◌<◌, ◌≤◌, ◌+◌};
ghost use Rattle.kd_model.specs.Slices.{Book, has_number, lowest_unused};
ghost use Rattle.kd_model.specs.Words.{some_of};
ghost use Rattle.kd_links.specs.Filed.{gap_from, lying};
ghost use Rattle.kd_links.specs.Kept.{IsKept, IsLinked, chain_book, slices_of};
ghost use Rattle.kd_rings.specs.declared.heads.TheConstants.{START};

use crate::bins;
use crate::chain::Chain;
use crate::node::{GAPS, Span};
use kd_model::{NoPlace, SLICES, SliceBook, SliceNo};
use kd_rings::START;
use std::alloc::{AllocError, Global};
use std::marker::Model;

/// A book of slices as a chain, which has a node for each number and each gap from the start on.
#[derive(Debug, Drop)]
pub struct Links {
    size: u32,
    used: u32,
    chain: Chain,
}

impl Model for Links {
    ghost Value = { Book };

    ghost view = { λ s. chain_book s.size s.chain };

    ghost invariant = { λ s. IsLinked s.size s.used s.chain };
}

impl SliceBook for Links {
    ghost book = { λ s. s };

    fn make(alloc: Global, size: u32) -> Result<Links, AllocError> {
        let mut chain = Chain::make(alloc)?;
        bins::fill(&mut chain);
        bins::refile(&mut chain, START, span_from(0, size));
        Ok(Links {
            size,
            used: 0,
            chain,
        })
    }

    #[tactic(auto, unfolding(kd_model::specs::Slices::place))]
    fn place(&mut self, len: u32) -> Result<(SliceNo, u32), NoPlace> {
        let Some(number) = lowest_unused(&self.chain, self.size) else {
            return Err(NoPlace::Spent);
        };
        let Some(behind) = bins::smallest(&self.chain, len) else {
            return Err(NoPlace::Full);
        };
        let Span { offset, len: room } = self.chain.span_inside(GAPS + behind);
        self.chain.put_behind(behind, number, Span { offset, len });
        bins::refile(&mut self.chain, behind, Span { offset: 0, len: 0 });
        let rest = span_from(offset + len, room - len);
        bins::refile(&mut self.chain, number, rest);
        self.used += len;
        Ok((SliceNo(number), offset))
    }

    fn give_back(&mut self, number: SliceNo) {
        let number = number.0;
        let span = self.chain.span_inside(number);
        let before = self.chain.previous(number);
        let left = self.chain.span_inside(GAPS + before).len;
        let right = self.chain.span_inside(GAPS + number).len;
        self.chain.take_out(number);
        bins::refile(&mut self.chain, number, Span { offset: 0, len: 0 });
        let whole = span_from(span.offset - left, left + span.len + right);
        bins::refile(&mut self.chain, before, whole);
        self.used -= span.len;
    }

    fn at(&self, number: SliceNo) -> Option<(u32, u32)> {
        let span = self.chain.span(number.0);
        if number.0 >= SLICES {
            return None;
        }
        if span.len == 0 {
            return None;
        }
        Some((span.offset, span.len))
    }

    fn used(&self) -> u32 {
        self.used
    }

    fn largest_gap(&self) -> u32 {
        bins::largest(&self.chain)
    }
}

/// What lies from a place on, of no bytes or some.
fn span_from(offset: u32, len: u32) -> Span
    ensures { gap_from result ≡ lying offset (offset + len) }
{
    if len == 0 {
        return Span { offset: 0, len: 0 };
    }
    Span { offset, len }
}

/// The lowest number that none of the slices has.
fn lowest_unused(chain: &Chain, size: u32) -> Option<u32>
    requires { IsKept size chain.now }
    ensures { result ≡ lowest_unused (slices_of chain.now) }
{
    'numbers: for number in 0..SLICES {
        if !is_used(chain, size, number) {
            return Some(number);
        }
    }
    None
}

/// Whether a slice has the number: its span has some bytes.
fn is_used(chain: &Chain, size: u32, number: u32) -> bool
    requires kept { IsKept size chain.now }
    requires low { number ≤ START }
    ensures { result ≡ some_of (has_number number) (slices_of chain.now) }
{
    chain.span_inside(number).len > 0
}
