//! The conditions of a rule, as items spell them.

ghost use Rattle.std.specs.Prelude.{◌≡◌, ◌++◌, ◌/◌, [], length, IfErr, IfOk, OnOk};
ghost use Rattle.std.specs.List.{cons_option};
ghost use Rattle.kd_bloom.specs.Bits.{pieces};
ghost use Rattle.kd_bloom.specs.Bloom.{is_mask_length};
ghost use Rattle.kd_match.specs.Rules.{is_bad_name};
ghost use Rattle.kd_model.specs.Words.{some_of};
ghost use Rattle.kd_commands.specs.Items.{condition_of, conditions_in, is_bad_mask};
ghost use Rattle.kd_said.specs.Said.{misnamed};

use kd_bloom::{Mask, Param};
use kd_match::Condition;
use kd_name::is_name;
use kd_types::{ConnId, Refusal};
use kd_wire::{WireItem, WireItems};
use std::alloc::{AllocError, Global};

/// Whether the item names what is neither empty nor a name.
fn misnames(item: &WireItem) -> bool
    ensures { result ≡ misnamed item.now }
{
    match item {
        WireItem::Name(name)
        | WireItem::NameAdd { name, .. }
        | WireItem::NameRemove { name, .. }
        | WireItem::NameChange { name, .. } => is_bad_name(name.bytes()),
        _ => false,
    }
}

/// Whether a text is neither empty nor a name.
fn is_bad_name(text: &[u8]) -> bool
    ensures { result ≡ is_bad_name text.now }
{
    !(text.is_empty() || is_name(text))
}

/// Whether so many bytes are one to four generations of a mask.
fn is_mask_length(param: Param, length: usize) -> bool
    ensures { result ≡ is_mask_length param.size length }
{
    let size = param.size as usize;
    length == size || length == 2 * size || length == 3 * size || length == 4 * size
}

/// Whether the item is a mask of another size than the bus's filters.
fn is_bad_mask(item: &WireItem, param: Param) -> bool
    ensures { result ≡ is_bad_mask param.size item.now }
{
    match item {
        WireItem::Mask(bytes) => !is_mask_length(param, bytes.bytes().len()),
        _ => false,
    }
}

/// Whether one of the items is a mask of another size than the bus's filters.
pub fn has_bad_mask(items: &[WireItem], param: Param) -> bool
    ensures { result ≡ some_of (is_bad_mask param.size) items.now }
{
    items.iter().any(|item| is_bad_mask(item, param))
}

/// Whether one of the items names what is neither empty nor a name.
pub fn has_bad_name(items: &[WireItem]) -> bool
    ensures { result ≡ some_of misnamed items.now }
{
    items.iter().any(misnames)
}

/// The generations of a mask, cut out of its bytes.
fn cut(alloc: Global, bytes: &[u8], param: Param) -> Result<Condition, Refusal>
    ensures cut { IfOk result
        (λ c. c ≡ Condition.Mask (pieces (length bytes.now / param.size) param.size bytes.now)) }
    ensures memory { IfErr result (λ e. e ≡ Refusal.OutOfMemory) }
{
    match Mask::of(alloc, bytes, param) {
        Ok(mask) => Ok(Condition::Mask(mask)),
        Err(_) => Err(Refusal::OutOfMemory),
    }
}

/// What an item asks for.
fn condition_of(alloc: Global, item: WireItem, param: Param) -> Result<Option<Condition>, Refusal>
    ensures condition { IfOk result (λ c. c ≡ condition_of param.size item) }
    ensures memory { IfErr result (λ e. e ≡ Refusal.OutOfMemory) }
{
    Ok(Some(match item {
        WireItem::Mask(bytes) => cut(alloc, bytes.bytes(), param)?,
        WireItem::Name(name) => Condition::Name { name },
        WireItem::Id(id) => Condition::Id { id: ConnId(id) },
        WireItem::IdAdd(id) => Condition::IdAdd { id: ConnId(id) },
        WireItem::IdRemove(id) => Condition::IdRemove { id: ConnId(id) },
        WireItem::NameAdd { old, new, name } => Condition::NameAdd {
            old: ConnId(old),
            new: ConnId(new),
            name,
        },
        WireItem::NameRemove { old, new, name } => Condition::NameRemove {
            old: ConnId(old),
            new: ConnId(new),
            name,
        },
        WireItem::NameChange { old, new, name } => Condition::NameChange {
            old: ConnId(old),
            new: ConnId(new),
            name,
        },
        _ => return Ok(None),
    }))
}

/// Puts one condition more behind the others, if there is one.
fn push_some(
    conditions: &mut Vec<Condition>,
    condition: Option<Condition>,
) -> Result<(), AllocError>
    ensures { OnOk result
        (conditions.new.items ≡ conditions.old.items ++ cons_option condition []) }
{
    match condition {
        Some(condition) => conditions.push(condition)?,
        None => (),
    }
    Ok(())
}

/// What a rule's items ask for, in their order.
#[tactic(auto, using(crate::proofs::Rules::conditions_more))]
pub fn conditions_in(
    alloc: Global,
    items: WireItems,
    param: Param,
) -> Result<Vec<Condition>, Refusal>
    ensures conditions { IfOk result (λ v. v.items ≡ conditions_in param.size items) }
    ensures memory { IfErr result (λ e. e ≡ Refusal.OutOfMemory) }
{
    let mut conditions = Vec::new(alloc);
    'items: for item in items.into_vec() {
        let condition = condition_of(alloc, item, param)?;
        push_some(&mut conditions, condition)?;
    }
    Ok(conditions)
}
