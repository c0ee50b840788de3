//! Giving names up, one by one or all at once.

ghost use Rattle.std.specs.Prelude.{◌≡◌, IsTrue, IfOk, IfErr, Ok, Err};
ghost use Rattle.kd_registry.specs.Claims.{after_release, heir, left_by, ranked, release_answer};
ghost use Rattle.kd_registry.specs.Spans.{IsSpanOf};

use crate::book::Book;
use crate::claim::Claim;
use crate::edits::withdraw;
use crate::registry::Registry;
use crate::search::{Span, claims_at, has_claim, span_of};
use kd_name::is_name;
use kd_types::{ConnId, Refusal};

/// Who is first among the claims on a name without those of a connection; 0 for nobody.
fn heir(ranks: &[Claim], id: ConnId) -> ConnId
    ensures { result ≡ heir ranks.now id }
{
    match ranks.iter().find(|claim| !claim.is_of(id)) {
        Some(claim) => claim.id,
        None => ConnId(0),
    }
}

/// Who owns the name once the connection has given up its claim, and where the claims on it stand.
fn ask_release(book: &Book, id: ConnId, name: &[u8]) -> Result<(Span, ConnId), Refusal>
    requires { IsTrue (ranked book.now) }
    ensures span { IfOk result (λ found. IsSpanOf book.now name.now found.0) }
    ensures ok { IfOk result (λ found. Ok found.1 ≡ release_answer book.now id name.now) }
    ensures err { IfErr result (λ refusal. Err refusal ≡ release_answer book.now id name.now) }
{
    if !is_name(name) {
        return Err(Refusal::BadName);
    }
    let span = span_of(book.claims(), name);
    let mine = claims_at(book.claims(), span);
    if mine.is_empty() {
        return Err(Refusal::NoSuchName);
    }
    if !has_claim(mine, id) {
        return Err(Refusal::NotOwner);
    }
    let owner = heir(mine, id);
    Ok((span, owner))
}

impl Registry {
    /// What [`Registry::release`] would be answered.
    pub fn may_release(&self, id: ConnId, name: &[u8]) -> Result<ConnId, Refusal>
        ensures { result ≡ release_answer self.now id name.now }
    {
        match ask_release(&self.book, id, name) {
            Ok((_, owner)) => Ok(owner),
            Err(refusal) => Err(refusal),
        }
    }

    /// A connection gives up its claim on a name, as owner or in the queue. Answers the owner after
    /// that, 0 for none: BadName where the text is no name, NoSuchName where nobody owns it,
    /// NotOwner where the connection has no claim on it.
    pub fn release(&mut self, id: ConnId, name: &[u8]) -> Result<ConnId, Refusal>
        ensures answer { result ≡ release_answer self.old id name.now }
        ensures after { self.new ≡ after_release self.old id name.now result }
    {
        let (span, owner) = ask_release(&self.book, id, name)?;
        withdraw(&mut self.book, id, span);
        Ok(owner)
    }

    /// Takes out all that a connection has: claims as owner and in queues, and an activator's.
    pub fn drop_conn(&mut self, id: ConnId)
        ensures { self.new ≡ left_by self.old id }
    {
        self.book.leave(id);
    }
}
