//! The gaps between slices that are sorted by offset.

ghost use Rattle.std.specs.Prelude.{◌≡◌, Option, fold, max};
ghost use Rattle.kd_model.specs.Slices.{AreInOrder, best_gap, between, is_better, largest_gap};
ghost use Rattle.kd_model.specs.Words.{least, lesser, those};
ghost use Rattle.kd_slices.specs.Gaps.{gap_holds};

use kd_model::{Gap, Placed};

/// The smallest gap that holds `len` bytes, the lowest among equals.
#[tactic(auto, unfolding(kd_model::specs::Slices::best_gap, kd_model::specs::Slices::gaps))]
pub fn smallest_gap(slices: &[Placed], size: u32, len: u32) -> Option<Gap>
    requires order { AreInOrder 0 size slices.now }
    ensures { result ≡ best_gap (record { size = size; slices = slices.now }) len }
{
    let mut best = None;
    let mut start = 0;
    'slices: for slice in slices {
        best = better(best, start, slice.offset, len);
        start = slice.offset + slice.len;
    }
    better(best, start, size, len)
}

/// The better of the best gap so far and what lies from `start` up to `end`, if that holds `len`
/// bytes.
fn better(best: Option<Gap>, start: u32, end: u32, len: u32) -> Option<Gap>
    ensures { result ≡ lesser is_better best (least is_better (those (gap_holds len) (between start end))) }
{
    if end <= start {
        return best;
    }
    let gap = Gap {
        start,
        len: end - start,
    };
    if gap.len < len {
        return best;
    }
    match best {
        None => Some(gap),
        Some(other) => {
            if gap.len < other.len || (gap.len == other.len && gap.start < other.start) {
                Some(gap)
            } else {
                Some(other)
            }
        }
    }
}

/// The length of the largest gap, 0 where there is none.
#[tactic(auto, unfolding(kd_model::specs::Slices::largest_gap, kd_model::specs::Slices::gaps))]
pub fn largest_gap(slices: &[Placed], size: u32) -> u32
    requires order { AreInOrder 0 size slices.now }
    ensures { result ≡ largest_gap (record { size = size; slices = slices.now }) }
{
    let mut most = 0;
    let mut start = 0;
    'slices: for slice in slices {
        most = most.max(slice.offset - start);
        start = slice.offset + slice.len;
    }
    most.max(size - start)
}
