//! What a command comes to, before it is done.

ghost use Rattle.std.specs.Prelude.{◌≡◌, List};
ghost use Rattle.kd_tables.specs.Drafts.{Draft, content_at, without_content};
ghost use Rattle.kd_tables.specs.Outs.{why_ended};
ghost use Rattle.kd_tables.specs.declared.part.Part.{Part};

use crate::change::Change;
use crate::content::Content;
use crate::finishing::stops;
use crate::part::{Out, Part};
use kd_commands::WhoKind;
use kd_types::Refusal;
use kd_wire::Reply;
use std::marker::Model;

/// A command that the desk doesn't refuse: the visits that it asks for, and all that its end needs.
/// It holds all memory of the command.
#[derive(Debug, Drop)]
pub struct Plan {
    /// Its visits, in their order.
    pub parts: Vec<Part>,
    /// The contents of its offers, by the place of their parts; what was taken is None.
    pub contents: Vec<Option<Content>>,
    /// The reply, unless a visit ends it.
    pub reply: Reply,
    /// What is done to the desk, unless a visit ends it.
    pub change: Change,
    /// What the caller is then.
    pub after: WhoKind,
}

impl Model for Plan {
    ghost Value = { Draft };

    ghost view = { λ p.
        record {
          parts = p.parts.items;
          contents = p.contents.items;
          reply = p.reply;
          change = p.change;
          after = p.after;
        } };
}

impl Plan {
    /// The parts in visiting order.
    pub fn parts(&self) -> &[Part]
        ensures { result.now ≡ self.now.parts }
    {
        &self.parts
    }

    /// What the caller is when the command is done; after HELLO the new connection, with its seat.
    pub fn after(&self) -> WhoKind
        ensures { result ≡ self.now.after }
    {
        self.after
    }

    /// The refusal that ended it at its first visit, if that had to be done.
    #[tactic(auto, using(crate::proofs::Ending::ends_where_it_stops))]
    pub fn refusal(&self, outs: &[Out]) -> Option<Refusal>
        ensures { result ≡ why_ended self.now outs.now }
    {
        stops(&self.parts, outs)
    }

    /// The content of the offer at this place, moved out; None where the place has no offer, or
    /// where it was taken.
    #[tactic(auto, unfolding(crate::specs::Drafts::without_content))]
    pub fn content(&mut self, index: usize) -> Option<Content>
        ensures content { result ≡ content_at index self.old.contents }
        ensures taken { self.new ≡ without_content index self.old }
    {
        match self.contents.get_mut(index) {
            Some(content) => content.take(),
            None => None,
        }
    }
}
