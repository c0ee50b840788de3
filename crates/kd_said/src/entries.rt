//! Policy entries, as items spell them.

ghost use Rattle.std.specs.Prelude.{◌≡◌, ◌&&◌, nat_lt, false, IfOk};
ghost use Rattle.std.specs.List.{list_any};
ghost use Rattle.kd_model.specs.Words.{some_of};
ghost use Rattle.kd_policy.specs.Policy.{has_star, is_ill_named};
ghost use Rattle.kd_wire.specs.Refusals.{is_bad_access};
ghost use Rattle.kd_commands.specs.Items.{entries_in, level_named, subject_named};

use kd_name::{is_pattern, is_wildcard};
use kd_policy::{Entry, Subject};
use kd_types::{Level, Text};
use kd_wire::WireItem;
use std::alloc::{AllocError, Global};

/// Whom an access is for; the id of one for all the world means nothing.
fn subject_named(kind: u64, id: u64) -> Subject
    requires number { nat_lt kind 3 && nat_lt 4294967295 id ≡ false }
    ensures { result ≡ subject_named kind id }
{
    match kind {
        1 => Subject::User(id as u32),
        2 => Subject::Group(id as u32),
        _ => Subject::World,
    }
}

/// What an access grants.
fn level_named(number: u64) -> Level
    ensures { result ≡ level_named number }
{
    match number {
        1 => Level::See,
        2 => Level::Talk,
        _ => Level::Own,
    }
}

/// The entries that items spell, each access with the name before it.
pub fn entries_in(alloc: Global, items: &[WireItem]) -> Result<Vec<Entry>, AllocError>
    requires numbers { list_any is_bad_access items.now ≡ false }
    ensures { IfOk result (λ entries. entries.items ≡ entries_in items.now) }
{
    let mut name: &[u8] = &[];
    let mut entries = Vec::new(alloc);
    'items: for item in items {
        match item {
            WireItem::Name(text) => name = text.bytes(),
            WireItem::Access { subject, level, id } => entries.push(Entry {
                pattern: Text::of(alloc, name)?,
                subject: subject_named(*subject, *id),
                level: level_named(*level),
            })?,
            _ => (),
        }
    }
    Ok(entries)
}

/// Whether the pattern of one of the entries is none.
pub fn has_ill_named(entries: &[Entry]) -> bool
    ensures { result ≡ some_of is_ill_named entries.now }
{
    entries
        .iter()
        .any(|entry| !is_pattern(entry.pattern.bytes()))
}

/// Whether the pattern of one of them is a wildcard.
pub fn has_wildcard(entries: &[Entry]) -> bool
    ensures { result ≡ some_of has_star entries.now }
{
    entries
        .iter()
        .any(|entry| is_wildcard(entry.pattern.bytes()))
}
