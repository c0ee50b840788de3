//! Endpoints: a caller makes one and keeps it.

ghost use Rattle.std.specs.Prelude.{◌≡◌, ◌||◌, not, false};
ghost use Rattle.std.specs.List.{list_any};
ghost use Rattle.kd_model.specs.Words.{some_of};
ghost use Rattle.kd_name.specs.Names.{is_label};
ghost use Rattle.kd_policy.specs.Policy.{has_star, is_ill_named};
ghost use Rattle.kd_wire.specs.Refusals.{is_bad_access};
ghost use Rattle.kd_commands.specs.Endpoints.{endpoint_make};
ghost use Rattle.kd_tables.specs.Drafts.{PlanResult};
ghost use Rattle.kd_desk.specs.Keeping.{endpoint_judged};

use crate::planning::quiet;
use kd_commands::WhoKind;
use kd_name::is_label;
use kd_policy::{ENTRIES, Entry, Owner};
use kd_said::{entries_in, has_ill_named, has_wildcard, label_in};
use kd_tables::{Change, Desk, Plan};
use kd_types::{Creds, Refusal, Text};
use kd_wire::{Reply, WireItem};
use std::alloc::Global;

/// Whether the label is none, or the pattern of one of the entries.
fn is_ill_said(label: &[u8], entries: &[Entry]) -> bool
    ensures { result ≡ (not (is_label label.now) || some_of is_ill_named entries.now) }
{
    !is_label(label) || has_ill_named(entries)
}

/// The number that an endpoint of this label and with these entries gets, or why none is made.
#[tactic(auto, unfolding(crate::specs::Keeping::endpoint_judged))]
fn judge_endpoint(
    desk: &Desk,
    creds: &Creds,
    label: &[u8],
    entries: &[Entry],
) -> Result<u8, Refusal>
    ensures { result ≡ endpoint_judged desk.now creds.now label.now entries.now }
{
    if is_ill_said(label, entries) {
        return Err(Refusal::BadName);
    }
    if has_wildcard(entries) {
        return Err(Refusal::BadFlags);
    }
    if !desk.is_privileged(creds) {
        return Err(Refusal::NotPermitted);
    }
    if desk.endpoints.find(label).is_some() {
        return Err(Refusal::EndpointExists);
    }
    if ENTRIES < entries.len() {
        return Err(Refusal::TooMany { limit: 256 });
    }
    desk.endpoints.may_add(label)
}

/// A caller makes an endpoint of the label with its first entries, and keeps it. Where the policy
/// had no room for one owner more, which can't come about, memory is wanting.
pub(crate) fn plan_endpoint_make(
    desk: &Desk,
    alloc: Global,
    creds: &Creds,
    items: &[WireItem],
) -> Result<Plan, Refusal>
    requires numbers { list_any is_bad_access items.now ≡ false }
    ensures { PlanResult desk.now (endpoint_make desk.now creds.now items.now) result }
{
    let label = label_in(items);
    let entries = entries_in(alloc, items)?;
    let number = judge_endpoint(desk, creds, label, &entries)?;
    if !desk.policy.has_room(Owner::Endpoint(number)) {
        return Err(Refusal::OutOfMemory);
    }
    let change = Change::AddsEndpoint {
        label: Text::of(alloc, label)?,
        number,
        entries,
    };
    Ok(quiet(alloc, Reply::EndpointMake, change, WhoKind::Keeper(number)))
}
