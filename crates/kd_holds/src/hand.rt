//! What a caller was told of slices.

ghost use Rattle.std.specs.Prelude.{◌≡◌, IfOk, List, None, Option, get_or, length};
ghost use Rattle.kd_world.specs.Hands.{empty_hand, with_told};
ghost use Rattle.kd_world.specs.declared.told.Told as code;

use kd_model::SLICES;
use kd_world::Told;
use std::alloc::{AllocError, Global};
use std::marker::Model;

/// What a caller was told of each number of its pool.
#[derive(Debug, Drop)]
pub struct Hand {
    told: Vec<Option<Told>>,
}

impl Model for Hand {
    ghost Value = { List (Option code.Told) };

    ghost view = { λ h. h.told.items };

    ghost invariant = { λ h. length h.told.items ≡ 256 };
}

impl Hand {
    /// The hand that was told of no number.
    pub fn make(alloc: Global) -> Result<Hand, AllocError>
        ensures { IfOk result (λ h. h ≡ empty_hand) }
    {
        Ok(Hand {
            told: vec![in alloc; None; SLICES as usize]?,
        })
    }

    /// What it was told of a number.
    pub fn told(&self, number: u32) -> Option<Told>
        ensures { result ≡ get_or self.now number None }
    {
        match self.told.get(number as usize) {
            Some(told) => *told,
            None => None,
        }
    }

    /// Something else is told of a number, or nothing any more.
    pub fn put(&mut self, number: u32, told: Option<Told>)
        ensures { self.new ≡ with_told number told self.old }
    {
        if let Some(place) = self.told.get_mut(number as usize) {
            *place = told;
        }
    }

    /// Nothing is told of any number any more.
    pub fn clear(&mut self)
        ensures { self.new ≡ empty_hand }
    {
        self.told.fill(None);
    }
}
