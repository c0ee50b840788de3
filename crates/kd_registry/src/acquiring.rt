//! Acquiring names, as an ordinary connection and as an activator.

ghost use Rattle.std.specs.Prelude.{◌≡◌, ◌<◌, ◌&&◌, not, nat_le, length, IsTrue, IfOk, IfErr, Ok, Err};
ghost use Rattle.kd_model.specs.Words.{some_of};
ghost use Rattle.kd_registry.specs.Claims.{acquired, activator_answer, after_activator, asked, claim_of, held, is_claim_of, judged, ranked};
ghost use Rattle.kd_registry.specs.Spans.{IsSpanOf};

use crate::book::Book;
use crate::claim::{Claim, Stake, Verdict};
use crate::edits::{put_in_queue, put_last, take};
use crate::registry::{CLAIM_LIMIT, Registry};
use crate::search::{Span, claims_at, has_activator, has_claim, span_of};
use kd_name::is_name;
use kd_types::{ConnId, NameFlags, Refusal, Text};

/// What an acquire is answered, by the claims on the name. `is_over` says that the connection has
/// none of them and can't have one more.
fn judge(ranks: &[Claim], id: ConnId, flags: NameFlags, is_over: bool) -> Result<Verdict, Refusal>
    ensures { result ≡ judged id flags is_over ranks.now }
{
    let [owner, ..] = ranks else {
        if is_over {
            return Err(Refusal::TooMany { limit: 64 });
        }
        return Ok(Verdict::Owner {
            old: ConnId(0),
            activator: None,
        });
    };
    if owner.id == id {
        return Err(Refusal::AlreadyOwned);
    }
    if is_over {
        return Err(Refusal::TooMany { limit: 64 });
    }
    if !owner.is_ordinary() {
        return Ok(Verdict::Owner {
            old: owner.id,
            activator: Some(owner.id),
        });
    }
    if owner.allows() && flags.replaces() {
        return Ok(Verdict::Owner {
            old: owner.id,
            activator: None,
        });
    }
    if flags.queues() {
        return Ok(Verdict::Queued);
    }
    Err(Refusal::NameTaken)
}

/// Whether a connection without a claim on a name has as many others as it may have.
fn is_over(book: &Book, ranks: &[Claim], id: ConnId) -> bool
    ensures { result ≡ (not (some_of (is_claim_of id) ranks.now) && nat_le 64 (held book.now id)) }
{
    !has_claim(ranks, id) && book.held(id) >= CLAIM_LIMIT
}

/// What an acquire makes of the caller, and where the claims on the name stand.
fn ask(book: &Book, id: ConnId, name: &[u8], flags: NameFlags) -> Result<(Span, Verdict), Refusal>
    requires { IsTrue (ranked book.now) }
    ensures span { IfOk result (λ found. IsSpanOf book.now name.now found.0) }
    ensures ok { IfOk result (λ found. Ok found.1 ≡ asked book.now id name.now flags) }
    ensures err { IfErr result (λ refusal. Err refusal ≡ asked book.now id name.now flags) }
{
    if !is_name(name) {
        return Err(Refusal::BadName);
    }
    let span = span_of(book.claims(), name);
    let mine = claims_at(book.claims(), span);
    let verdict = judge(mine, id, flags, is_over(book, mine, id))?;
    Ok((span, verdict))
}

/// Where the claims on the name stand, if it may have an activator.
fn ask_activator(book: &Book, name: &[u8]) -> Result<Span, Refusal>
    requires { IsTrue (ranked book.now) }
    ensures span { IfOk result (IsSpanOf book.now name.now) }
    ensures ok { IfOk result (λ span. Ok tt ≡ activator_answer book.now name.now) }
    ensures err { IfErr result (λ refusal. Err refusal ≡ activator_answer book.now name.now) }
{
    if !is_name(name) {
        return Err(Refusal::BadName);
    }
    let span = span_of(book.claims(), name);
    if has_activator(claims_at(book.claims(), span)) {
        return Err(Refusal::NameTaken);
    }
    Ok(span)
}

impl Registry {
    /// What [`Registry::acquire`] would be answered.
    pub fn ask(&self, id: ConnId, name: &[u8], flags: NameFlags) -> Result<Verdict, Refusal>
        ensures { result ≡ asked self.now id name.now flags }
    {
        match ask(&self.book, id, name, flags) {
            Ok((_, verdict)) => Ok(verdict),
            Err(refusal) => Err(refusal),
        }
    }

    /// An ordinary connection asks for a name. The first of these cases that holds decides: the
    /// text is no name, BadName; the connection is the owner, AlreadyOwned; it has [`CLAIM_LIMIT`]
    /// claims and none on this name, TooMany; nobody but an activator claims the name, and it
    /// becomes the owner; the owner allows to be replaced and the connection asks to replace, and
    /// it becomes the owner; it asks to queue, and it is queued; NameTaken.
    pub fn acquire(&mut self, id: ConnId, name: Text, flags: NameFlags) -> Result<Verdict, Refusal>
        // A connection that may have one more claim finds room for it.
        requires room { held self.old id < 64 → length self.old < 4160 }
        ensures answer { result ≡ asked self.old id name flags }
        ensures after { self.new ≡ acquired self.old (claim_of id name flags) result }
    {
        let (span, verdict) = ask(&self.book, id, name.bytes(), flags)?;
        let claim = Claim {
            name,
            id,
            stake: Stake::Ordinary(flags),
        };
        match verdict {
            Verdict::Owner { .. } => take(&mut self.book, claim, span),
            Verdict::Queued => put_in_queue(&mut self.book, claim, span),
        }
        Ok(verdict)
    }

    /// What [`Registry::set_activator`] would be answered.
    pub fn may_activate(&self, name: &[u8]) -> Result<(), Refusal>
        ensures { result ≡ activator_answer self.now name.now }
    {
        match ask_activator(&self.book, name) {
            Ok(_) => Ok(()),
            Err(refusal) => Err(refusal),
        }
    }

    /// Makes the connection the activator of the name: BadName where the text is no name, NameTaken
    /// where the name has an activator.
    pub fn set_activator(&mut self, id: ConnId, name: Text) -> Result<(), Refusal>
        requires room { length self.old < 4160 }
        ensures answer { result ≡ activator_answer self.old name }
        ensures after { self.new ≡ after_activator self.old id name result }
    {
        let span = ask_activator(&self.book, name.bytes())?;
        let claim = Claim {
            name,
            id,
            stake: Stake::Activator,
        };
        put_last(&mut self.book, claim, span);
        Ok(())
    }
}
