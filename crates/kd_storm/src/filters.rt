//! The filters of a load.
ghost use Rattle.std.specs.Prelude.{◌≡◌, ◌<◌, [], ◌∷◌, IfOk, get_or, length};
ghost use Rattle.kd_bloom.specs.Bloom.{IsFilter};
ghost use Rattle.kd_load.specs.Bus.{AreFilters};
ghost use Rattle.kd_load.specs.Counts.{tag};

use kd_bloom::{FilterBuilder, Param};
use kd_types::Blob;
use std::alloc::{AllocError, Global};
use std::marker::Model;

/// A filter for each of the eight digits, in their order: of the one string of the letter t and the
/// digit. A mask of one generation is the filter of its strings.
#[derive(Debug, Drop)]
pub struct Filters {
    each: Vec<Blob>,
}

impl Model for Filters {
    ghost use Rattle.std.specs.Prelude.{◌≡◌, ℕ, List, length};

    ghost Value = { List (List ℕ) };

    ghost view = { λ f. f.each.items };

    ghost invariant = { λ f. length f.each.items ≡ 8 };
}

/// The filter of one digit's string.
fn filter_of(alloc: Global, digit: u8) -> Result<Blob, AllocError>
    requires { digit < 8 }
    ensures { IfOk result (λ bits. IsFilter 64 8 0 (tag digit ∷ []) bits) }
{
    let Some(param) = Param::of(64, 8) else {
        unreachable!()
    };
    let mut filter = FilterBuilder::make(alloc, param, 0)?;
    filter.add(&[b't', b'0' + digit]);
    Ok(Blob::of(filter.finish()))
}

impl Filters {
    /// The filters of the eight digits.
    pub fn make(alloc: Global) -> Result<Filters, AllocError>
        ensures { IfOk result (λ f. AreFilters f) }
    {
        let mut each = Vec::with_capacity(alloc, 8)?;
        'digits: for digit in 0..8u8 {
            each.push(filter_of(alloc, digit)?)?;
        }
        Ok(Filters { each })
    }

    /// The filter of one digit.
    pub fn of(&self, digit: u8) -> &[u8]
        requires { digit < 8 }
        ensures { result.now ≡ get_or self.now digit [] }
    {
        self.each[digit as usize].bytes()
    }
}
