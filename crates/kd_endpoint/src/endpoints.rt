//! The book of labels.

ghost use Rattle.std.specs.Prelude.{◌≡◌, ◌<◌, ◌≤◌, IfOk, IfSome, OnErr, position};
ghost use Rattle.kd_endpoint.specs.Labels.{is_called, free_place, no_labels, label_number, add_answer, after_add, after_remove};

use kd_name::is_label;
use kd_types::{Refusal, Text};
use std::alloc::{AllocError, Global};
use std::marker::Model;

/// How many endpoints a bus may have beside its default one: a connection that asks for one more is
/// refused.
pub const ENDPOINTS: usize = 8;

/// The label of the default endpoint, which can't be taken or given away.
const DEFAULT_LABEL: &[u8] = b"bus";

/// The labels of a bus's endpoints. A contract sees them as the list of the labels of the endpoints
/// 1 to 8, where there are such.
#[derive(Debug, Drop)]
pub struct Endpoints {
    labels: [Option<Text>; ENDPOINTS],
}

impl Model for Endpoints {
    ghost use Rattle.kd_endpoint.specs.Labels.{Labels};

    ghost Value = { Labels };

    ghost view = { λ e. e.labels };
}

impl Endpoints {
    /// The book of a bus that has its default endpoint alone. The labels stand in the value itself,
    /// so no memory is asked for today.
    pub fn make(_alloc: Global) -> Result<Endpoints, AllocError>
        ensures empty { IfOk result (λ e. e ≡ no_labels) }
    {
        Ok(Endpoints {
            labels: [None, None, None, None, None, None, None, None],
        })
    }

    /// Adds an endpoint with this label and answers its number, the lowest free one. It is refused
    /// where the text is no label (`BadName`), where an endpoint has the label already, as the
    /// default one has `bus` (`EndpointExists`), and where all eight numbers are taken (`TooMany`);
    /// a refusal changes nothing.
    #[tactic(auto, unfolding(crate::specs::Labels::add_answer, crate::specs::Labels::after_add, crate::specs::Labels::label_refusal))]
    pub fn add(&mut self, label: Text) -> Result<u8, Refusal>
        ensures answer { result ≡ add_answer self.old label }
        ensures number { IfOk result (λ n. (1 ≤ n) × (n ≤ 8)) }
        ensures after { self.new ≡ after_add self.old label }
        ensures refused { OnErr result (self.new ≡ self.old) }
    {
        let number = self.may_add(label.bytes())?;
        self.labels[number as usize - 1] = Some(label);
        Ok(number)
    }

    /// What `add` would answer to this label.
    #[tactic(auto, unfolding(crate::specs::Labels::add_answer, crate::specs::Labels::label_refusal))]
    pub fn may_add(&self, label: &[u8]) -> Result<u8, Refusal>
        ensures answer { result ≡ add_answer self.now label.now }
        ensures number { IfOk result (λ n. (1 ≤ n) × (n ≤ 8)) }
    {
        if !is_label(label) {
            return Err(Refusal::BadName);
        }
        if self.find(label).is_some() {
            return Err(Refusal::EndpointExists);
        }
        let Some(place) = self.free_place() else {
            return Err(Refusal::TooMany { limit: 8 });
        };
        Ok(place as u8 + 1)
    }

    /// Removes the endpoint of this number. Nothing happens for the default endpoint, and for a
    /// number that no endpoint has.
    #[tactic(auto, unfolding(crate::specs::Labels::after_remove))]
    pub fn remove(&mut self, number: u8)
        ensures { self.new ≡ after_remove self.old number }
    {
        if number >= 1 && number <= 8 {
            self.labels[number as usize - 1] = None;
        }
    }

    /// Removes all endpoints but the default one.
    pub fn clear(&mut self)
        ensures { self.new ≡ no_labels }
    {
        self.labels = [None, None, None, None, None, None, None, None];
    }

    /// The number of the endpoint with this label: 0 for `bus`.
    #[tactic(auto, unfolding(crate::specs::Labels::label_number))]
    pub fn find(&self, label: &[u8]) -> Option<u8>
        ensures { result ≡ label_number self.now label.now }
    {
        if label == DEFAULT_LABEL {
            return Some(0);
        }
        let place = self.place_of(label)?;
        Some(place as u8 + 1)
    }

    /// The place of the endpoint with this label, from 0 on; the default endpoint has none.
    fn place_of(&self, label: &[u8]) -> Option<usize>
        ensures place { result ≡ position (is_called label.now) self.now }
        ensures inside { IfSome result (λ place. place < 8) }
    {
        self.labels.iter().position(|own| is_called(own, label))
    }

    /// The place of the lowest number that no endpoint has, from 0 on.
    #[tactic(auto, unfolding(crate::specs::Labels::free_place))]
    fn free_place(&self) -> Option<usize>
        ensures place { result ≡ free_place self.now }
        ensures inside { IfSome result (λ place. place < 8) }
    {
        self.labels.iter().position(|own| own.is_none())
    }
}

/// Whether the place has this label.
fn is_called(own: &Option<Text>, label: &[u8]) -> bool
    ensures { result ≡ is_called label.now own.now }
{
    match own {
        Some(own) => own.bytes() == label,
        None => false,
    }
}
