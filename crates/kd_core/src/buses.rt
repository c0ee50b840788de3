//! Which bus a command names: a world has one.

ghost use Rattle.std.specs.Prelude.{◌≡◌, ◌&&◌, option_map};
ghost use Rattle.kd_commands.specs.Items.{bus_in};
ghost use Rattle.kd_world.specs.Planner.{is_elsewhere, is_fresh, names_other_bus};

use kd_desk::{Who, WhoKind};
use kd_types::Text;
use kd_wire::{Command, WireItem};

/// The bus of a world.
const BUS: &[u8] = b"1000-replay";

/// The bus that is named, if one is.
fn bus_in(items: &[WireItem]) -> Option<&Text>
    ensures { option_map (λ n. n.now) result ≡ bus_in items.now }
{
    'items: for item in items {
        if let WireItem::Bus(name) = item {
            return Some(name);
        }
    }
    None
}

/// Whether another bus is named.
fn is_elsewhere(items: &[WireItem]) -> bool
    ensures { result ≡ is_elsewhere items.now }
{
    match bus_in(items) {
        Some(name) => name.bytes() != BUS,
        None => false,
    }
}

/// Whether a command names another bus.
fn names_other_bus(command: &Command) -> bool
    ensures { result ≡ names_other_bus command.now }
{
    match command {
        Command::Hello { items, .. } => is_elsewhere(items.items()),
        Command::EndpointMake { items } => is_elsewhere(items.items()),
        _ => false,
    }
}

/// Whether somebody who is nothing yet gives itself to another bus.
pub(crate) fn is_astray(who: &Who, command: &Command) -> bool
    ensures { result ≡ (is_fresh who.now.member && names_other_bus command.now) }
{
    matches!(who.member, WhoKind::Fresh) && names_other_bus(command)
}
