//! The book of a pool's slices: who keeps it places slices and takes them back.

ghost use Rattle.std.specs.Prelude.{◌≡◌, ◌↔◌, ◌<◌, ◌≤◌, ◌%◌, ℕ, [], IfOk, OnErr, None, Some, IsErrOf, IsTrue, ◌==◌, option_map};
ghost use Rattle.kd_model.specs.Slices.{Book, IsSound, empty_book, slice_entry, is_placed, largest_gap, place, unused_number, used, with_slice, without_slice};

use crate::slice_no::SliceNo;
use std::alloc::{AllocError, Global};

/// Why a slice has no place.
#[derive(Clone, Copy, Debug, PartialEq, Eq)]
pub enum NoPlace {
    /// All slice numbers are in use.
    Spent,
    /// No gap holds the length.
    Full,
}

/// A book of the slices of one pool. A contract sees it as a [`Book`]: the pool's size, and the
/// slices by rising offset. All calls but `make` take no memory.
pub trait SliceBook {
    ghost book: { Self → Book };

    /// An empty book for a pool of `size` bytes, which is a multiple of 8 and at most 1,048,576.
    fn make(alloc: Global, size: u32) -> Result<Self, AllocError>
        requires eights { size % 8 ≡ 0 }
        ensures empty { IfOk result (λ b. book b ≡ empty_book size) };

    /// Places a slice of `len` bytes at the front of the smallest gap that holds it, the lowest
    /// among equals, and gives it the lowest unused number. Answers the number and the offset.
    fn place(&mut self, len: u32) -> Result<(SliceNo, u32), NoPlace>
        requires some { 0 < len }
        requires eights { len % 8 ≡ 0 }
        ensures number { IfOk result (λ r. unused_number (book self.old) ≡ Some r.0) }
        ensures offset { IfOk result (λ r. place (book self.old) len ≡ Some r.1) }
        ensures placed { IfOk result (λ r.
            book self.new
            ≡ with_slice (record { number = r.0; offset = r.1; len = len })
            (book self.old)) }
        ensures spent { IsErrOf result NoPlace.Spent ↔ (unused_number (book self.old) ≡ None) }
        ensures full { IsErrOf result NoPlace.Full → place (book self.old) len ≡ None }
        ensures err { OnErr result (book self.new ≡ book self.old) }
        ensures sound { IsSound (book self.new) };

    /// Takes a slice back; its range joins the gaps beside it.
    fn give_back(&mut self, number: SliceNo)
        requires { IsTrue (is_placed number (book self.old)) }
        ensures gone { book self.new ≡ without_slice number (book self.old) }
        ensures sound { IsSound (book self.new) };

    /// Offset and length of a slice, `None` where the number isn't placed.
    fn at(&self, number: SliceNo) -> Option<(u32, u32)>
        ensures { result ≡ option_map (λ s. (s.offset, s.len)) (slice_entry number (book self.now)) };

    /// How many bytes the slices take together.
    fn used(&self) -> u32
        ensures { result ≡ used (book self.now) };

    /// The length of the largest gap, 0 where there is none.
    fn largest_gap(&self) -> u32
        ensures { result ≡ largest_gap (book self.now) };
}
