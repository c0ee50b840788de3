//! Policy entries: what their owners grant on names.

ghost use Rattle.std.specs.Prelude.{◌≡◌, false};
ghost use Rattle.std.specs.List.{list_any};
ghost use Rattle.kd_wire.specs.Refusals.{is_bad_access};
ghost use Rattle.kd_commands.specs.Policy.{policy_set};
ghost use Rattle.kd_tables.specs.Drafts.{PlanResult};

use crate::planning::quiet;
use kd_commands::WhoKind;
use kd_policy::Owner;
use kd_said::entries_in;
use kd_tables::{Change, Desk, Plan};
use kd_types::Refusal;
use kd_wire::{Reply, WireItem};
use std::alloc::Global;

/// The owner has other entries in place of its own. Where the policy had no room for one owner
/// more, which can't come about, memory is wanting.
pub(crate) fn plan_policy_set(
    desk: &Desk,
    alloc: Global,
    owner: &Owner,
    after: WhoKind,
    items: &[WireItem],
) -> Result<Plan, Refusal>
    requires numbers { list_any is_bad_access items.now ≡ false }
    ensures { PlanResult desk.now (policy_set desk.now after owner.now items.now) result }
{
    let entries = entries_in(alloc, items)?;
    desk.policy.may_put(*owner, &entries)?;
    if !desk.policy.has_room(*owner) {
        return Err(Refusal::OutOfMemory);
    }
    let change = Change::SetsPolicy {
        owner: *owner,
        entries,
    };
    Ok(quiet(alloc, Reply::PolicySet, change, after))
}
