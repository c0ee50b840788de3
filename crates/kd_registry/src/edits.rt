//! Edits of the claims, each of one claim at its place.
//!
//! They stand apart from the registry since a claim may be missing, or one too many, between two of
//! them.

ghost use Rattle.std.specs.Prelude.{◌≡◌, ℕ, ◌+◌, ◌<◌, ◌≤◌, ◌++◌, List, [], ◌∷◌, IsTrue, length};
ghost use Rattle.kd_registry.specs.Claims.{gives_way, held_on, queued_claims, ranked, ranks, released, staying, taken, with_ranks};
ghost use Rattle.kd_registry.specs.Spans.{IsSpanOf};

use crate::book::Book;
use crate::claim::Claim;
use crate::search::{Span, claims_at, ordinary_count, rank_of};
use kd_types::ConnId;

/// Takes a connection's ordinary claim off a name, if it has one: that whose claims stand at the
/// span. Answers where they stand then.
pub(crate) fn withdraw(book: &mut Book, id: ConnId, span: Span) -> Span
    requires ranked { IsTrue (ranked book.old) }
    requires span { (n : List ℕ) × IsSpanOf book.old n span }
    ensures items { (n : List ℕ) → IsSpanOf book.old n span → book.new ≡ released book.old id n }
    ensures len { (n : List ℕ) → IsSpanOf book.old n span
        → length book.new + held_on book.old id n ≡ length book.old }
    ensures span { (n : List ℕ) → IsSpanOf book.old n span → IsSpanOf book.new n result }
{
    match rank_of(claims_at(book.claims(), span), id) {
        Some(rank) => {
            book.remove(span.start + rank);
            Span {
                start: span.start,
                count: span.count - 1,
            }
        }
        None => span,
    }
}

/// Whether the first of the claims on a name goes where another takes its place.
fn gives_way(ranks: &[Claim]) -> bool
    ensures { result ≡ gives_way ranks.now }
{
    match ranks {
        [owner, ..] => owner.is_ordinary() && !owner.queues(),
        [] => false,
    }
}

/// Puts a claim before the others on its name; an owner that hadn't asked to queue goes.
pub(crate) fn put_first(book: &mut Book, claim: Claim, span: Span)
    requires ranked { IsTrue (ranked book.old) }
    requires span { IsSpanOf book.old claim.name span }
    requires room { length book.old < 4160 }
    ensures items { book.new ≡ with_ranks book.old claim.name
        (claim ∷ staying (ranks book.old claim.name)) }
    ensures len { length book.new ≤ length book.old + 1 }
{
    if gives_way(claims_at(book.claims(), span)) {
        book.replace(span.start, claim);
    } else {
        book.insert(span.start, claim);
    }
}

/// Makes the claim the owner's; an older one of its connection goes.
pub(crate) fn take(book: &mut Book, claim: Claim, span: Span)
    requires ranked { IsTrue (ranked book.old) }
    requires span { IsSpanOf book.old claim.name span }
    requires room { length book.old < 4160 + held_on book.old claim.id claim.name }
    ensures items { book.new ≡ with_ranks book.old claim.name
        (taken claim (ranks book.old claim.name)) }
    ensures len { length book.new + held_on book.old claim.id claim.name ≤ length book.old + 1 }
{
    let rest = withdraw(book, claim.id, span);
    put_first(book, claim, rest);
}

/// Puts a claim into the queue: in the place of an older one of its connection, else behind all
/// others and before the activator's.
pub(crate) fn put_in_queue(book: &mut Book, claim: Claim, span: Span)
    requires ranked { IsTrue (ranked book.old) }
    requires span { IsSpanOf book.old claim.name span }
    requires short { length book.old ≤ 4160 }
    requires room { length book.old < 4160 + held_on book.old claim.id claim.name }
    ensures items { book.new ≡ with_ranks book.old claim.name
        (queued_claims claim (ranks book.old claim.name)) }
    ensures len { length book.new + held_on book.old claim.id claim.name ≤ length book.old + 1 }
{
    let mine = claims_at(book.claims(), span);
    match rank_of(mine, claim.id) {
        Some(rank) => book.replace(span.start + rank, claim),
        None => {
            let behind = span.start + ordinary_count(mine);
            book.insert(behind, claim);
        }
    }
}

/// Puts a claim behind all others on its name.
pub(crate) fn put_last(book: &mut Book, claim: Claim, span: Span)
    requires ranked { IsTrue (ranked book.old) }
    requires span { IsSpanOf book.old claim.name span }
    requires room { length book.old < 4160 }
    ensures items { book.new ≡ with_ranks book.old claim.name
        (ranks book.old claim.name ++ claim ∷ []) }
    ensures len { length book.new ≡ length book.old + 1 }
{
    let end = span.start + span.count;
    book.insert(end, claim);
}
