//! Names, labels and descriptions, each the first that an item says.

ghost use Rattle.std.specs.Prelude.{◌≡◌, IfOk, option_map};
ghost use Rattle.kd_commands.specs.Endpoints.{label_in};
ghost use Rattle.kd_commands.specs.Items.{activator_name, description_in, destination_name, endpoint_in};
ghost use Rattle.kd_said.specs.Said.{name_among};

use kd_types::Text;
use kd_wire::WireItem;
use std::alloc::{AllocError, Global};

/// The name that a message is sent to, if one is given.
pub fn destination(items: &[WireItem]) -> Option<&Text>
    ensures { option_map (λ n. n.now) result ≡ destination_name items.now }
{
    'items: for item in items {
        if let WireItem::DstName(name) = item {
            return Some(name);
        }
    }
    None
}

/// The label of an endpoint, if one is given.
pub fn endpoint_in(items: &[WireItem]) -> Option<&Text>
    ensures { option_map (λ n. n.now) result ≡ endpoint_in items.now }
{
    'items: for item in items {
        if let WireItem::Endpoint(label) = item {
            return Some(label);
        }
    }
    None
}

/// The label that a new endpoint has to have; without bytes where none is given.
pub fn label_in(items: &[WireItem]) -> &[u8]
    ensures { result.now ≡ label_in items.now }
{
    match endpoint_in(items) {
        Some(label) => label.bytes(),
        None => &[],
    }
}

/// The first name, if one is given.
fn name_among(items: &[WireItem]) -> Option<&Text>
    ensures { option_map (λ n. n.now) result ≡ name_among items.now }
{
    'items: for item in items {
        if let WireItem::Name(name) = item {
            return Some(name);
        }
    }
    None
}

/// The name that an activator stands for; without bytes where none is given.
#[tactic(auto, using(crate::proofs::Said::name_of_activator))]
pub fn activator_name(alloc: Global, items: &[WireItem]) -> Result<Text, AllocError>
    ensures { IfOk result (λ name. name ≡ activator_name items.now) }
{
    match name_among(items) {
        Some(name) => Text::of(alloc, name.bytes()),
        None => Text::of(alloc, &[]),
    }
}

/// What a connection calls itself, if it does.
fn description_in(items: &[WireItem]) -> Option<&Text>
    ensures { option_map (λ n. n.now) result ≡ description_in items.now }
{
    'items: for item in items {
        if let WireItem::Description(text) = item {
            return Some(text);
        }
    }
    None
}

/// The same, copied.
pub fn description_of(alloc: Global, items: &[WireItem]) -> Result<Option<Text>, AllocError>
    ensures { IfOk result (λ text. text ≡ description_in items.now) }
{
    match description_in(items) {
        Some(text) => Ok(Some(Text::of(alloc, text.bytes())?)),
        None => Ok(None),
    }
}
