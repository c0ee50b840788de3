//! Finding the claims on a name among claims by name and rank.

ghost use Rattle.std.specs.Prelude.{option_map, ◌≡◌, ◌+◌, ◌≤◌, IsTrue, drop, length, not, take};
ghost use Rattle.std.specs.List.{position, position_or_len};
ghost use Rattle.kd_model.specs.Words.{some_of, text_below, those};
ghost use Rattle.kd_registry.specs.declared.claim.Claim.{Claim};
ghost use Rattle.kd_registry.specs.Claims.{is_claim_of, is_on, is_ordinary_claim, head, is_placeholder, lower, owner, ranked, ranks};
ghost use Rattle.kd_registry.specs.Spans.{IsSpanOf};

use crate::claim::Claim;
use kd_types::ConnId;

/// Where the claims on a name stand among all: the first of them, and how many there are.
#[derive(Clone, Copy, Debug)]
pub(crate) struct Span {
    pub(crate) start: usize,
    pub(crate) count: usize,
}

/// Whether one text is before another in byte order.
pub(crate) fn is_below(a: &[u8], b: &[u8]) -> bool
    ensures { result ≡ text_below a.now b.now }
{
    a.cmp(&b).is_lt()
}

/// Where the claims on the name begin.
pub(crate) fn start_of(claims: &[Claim], name: &[u8]) -> usize
    requires { IsTrue (ranked claims.now) }
    ensures place { result ≡ length (lower claims.now name.now) }
    ensures within { result ≤ length claims.now }
{
    claims.partition_point(|claim| is_below(claim.name.bytes(), name))
}

/// The place of the first claim that isn't on the name.
fn first_off(claims: &[Claim], name: &[u8]) -> Option<usize>
    ensures { result ≡ position (λ (c : Claim). not (is_on name.now c)) claims.now }
{
    claims
        .iter()
        .position(|claim| !(claim.name.bytes() == name))
}

/// How many claims at the front are on the name.
fn count_on(claims: &[Claim], name: &[u8]) -> usize
    ensures { result ≡ position_or_len (λ (c : Claim). not (is_on name.now c)) claims.now }
{
    match first_off(claims, name) {
        Some(count) => count,
        None => claims.len(),
    }
}

/// Where the claims on the name stand. A name has few, so their end is found by walking over them.
pub(crate) fn span_of(claims: &[Claim], name: &[u8]) -> Span
    requires { IsTrue (ranked claims.now) }
    ensures { IsSpanOf claims.now name.now result }
{
    let start = start_of(claims, name);
    let (_, rest) = claims.split_at(start);
    Span {
        start,
        count: count_on(rest, name),
    }
}

/// The claims at a span.
pub(crate) fn claims_at(claims: &[Claim], span: Span) -> &[Claim]
    requires { span.start + span.count ≤ length claims.now }
    ensures { result.now ≡ take span.count (drop span.start claims.now) }
{
    let (_, rest) = claims.split_at(span.start);
    rest.split_at(span.count).0
}

/// The claims on the name, by rank.
pub(crate) fn ranks<'a>(claims: &'a [Claim], name: &[u8]) -> &'a [Claim]
    requires { IsTrue (ranked claims.now) }
    ensures { result.now ≡ ranks claims.now name.now }
{
    claims_at(claims, span_of(claims, name))
}

/// The first of the claims on a name.
fn first_of(ranks: &[Claim]) -> Option<&Claim>
    ensures { option_map (λ c. c.now) result ≡ head ranks.now }
{
    match ranks {
        [first, ..] => Some(first),
        [] => None,
    }
}

/// The owner's claim on the name.
pub(crate) fn owner_of<'a>(claims: &'a [Claim], name: &[u8]) -> Option<&'a Claim>
    requires { IsTrue (ranked claims.now) }
    ensures { option_map (λ c. c.now) result ≡ owner claims.now name.now }
{
    first_of(ranks(claims, name))
}

/// Whether a connection has an ordinary claim on a name.
pub(crate) fn has_claim(ranks: &[Claim], id: ConnId) -> bool
    ensures { result ≡ some_of (is_claim_of id) ranks.now }
{
    ranks.iter().any(|claim| claim.is_of(id))
}

/// The rank of a connection's ordinary claim among those on a name.
pub(crate) fn rank_of(ranks: &[Claim], id: ConnId) -> Option<usize>
    ensures { result ≡ position (is_claim_of id) ranks.now }
{
    ranks.iter().position(|claim| claim.is_of(id))
}

/// How many ordinary claims stand on a name.
pub(crate) fn ordinary_count(ranks: &[Claim]) -> usize
    ensures { result ≡ length (those is_ordinary_claim ranks.now) }
{
    ranks.iter().filter(|claim| claim.is_ordinary()).count()
}

/// Whether an activator stands on a name.
pub(crate) fn has_activator(ranks: &[Claim]) -> bool
    ensures { result ≡ some_of is_placeholder ranks.now }
{
    ranks.iter().any(|claim| !claim.is_ordinary())
}
