//! Names of buses.

ghost use Rattle.std.specs.Prelude.{◌≡◌, IfOk};
ghost use Rattle.kd_name.specs.BusNames.{bus_name_fault, has_prefix};

use crate::label::is_label;
use std::alloc::{AllocError, Global};

/// Why a bus of a user can't have a name.
#[derive(Clone, Copy, Debug, PartialEq, Eq)]
pub enum BusNameFault {
    /// It is no label.
    NoLabel,
    /// It is a label, but not the user's number in decimal, a dash, and at least one byte more.
    WrongPrefix,
}

/// Why a bus of this user can't have the name, where it can't: it is to be a label that begins
/// with the user's number in decimal and a dash, and goes on behind them, as `1000-home`. So no
/// user takes the name of another's bus.
#[tactic(auto, unfolding(crate::specs::BusNames::bus_name_fault))]
pub fn bus_name_fault(
    alloc: Global,
    uid: u32,
    name: &[u8],
) -> Result<Option<BusNameFault>, AllocError>
    ensures { IfOk result (λ fault. fault ≡ bus_name_fault uid name.now) }
{
    if !is_label(name) {
        return Ok(Some(BusNameFault::NoLabel));
    }
    if has_prefix(alloc, uid, name)? {
        Ok(None)
    } else {
        Ok(Some(BusNameFault::WrongPrefix))
    }
}

/// Whether the name begins with the number of the user and a dash, and goes on behind them.
fn has_prefix(alloc: Global, uid: u32, name: &[u8]) -> Result<bool, AllocError>
    ensures { IfOk result (λ prefixed. prefixed ≡ has_prefix uid name.now) }
{
    let prefix = format!(in alloc; "{uid}-")?;
    Ok(name.starts_with(prefix.as_bytes()) && prefix.len() < name.len())
}
