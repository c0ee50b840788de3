//! What is wrong with the values of a frame whose format isn't broken.

ghost use Rattle.std.specs.Prelude.{◌≡◌, ◌*◌, ◌≤◌, length};
ghost use Rattle.std.specs.List.{list_any};
ghost use Rattle.kd_wire.specs.Opcodes.{word_count};
ghost use Rattle.kd_model.specs.Filters.{is_bloom_size, is_hash_count};
ghost use Rattle.kd_wire.specs.Refusals.{own_words, has_double, lacks_one, begins_with_access, has_bare_name, has_empty_group, has_unknown_flag, is_two_kinds, is_pool_of, has_bad_word, is_bad_access, flaw_of, words_from};

use crate::item::WireItem;
use crate::kinds::{ACCESS, NAME, how_many, is_one_of, kinds_of, needed_kinds, single_kinds};
use crate::opcode::{MOST_WORDS, Opcode};
use kd_item::word_at;
use kd_types::{HelloFlags, Refusal};

/// Whether an item of which one at most may stand stands twice.
fn has_double(single: &[u64], items: &[WireItem]) -> bool
    ensures { result ≡ has_double single.now items.now }
{
    single.iter().any(|kind| how_many(*kind, items) > 1)
}

/// Whether an item of which one must stand doesn't.
fn lacks_one(needed: &[u64], items: &[WireItem]) -> bool
    ensures { result ≡ lacks_one needed.now items.now }
{
    needed.iter().any(|kind| how_many(*kind, items) == 0)
}

/// Whether the first of the items is an ACCESS.
fn begins_with_access(items: &[WireItem]) -> bool
    ensures { result ≡ begins_with_access items.now }
{
    match items {
        [] => false,
        [item, ..] => item.kind() == ACCESS,
    }
}

/// Whether a NAME has no ACCESS directly behind it.
fn has_bare_name(items: &[WireItem]) -> bool
    ensures { result ≡ has_bare_name items.now }
{
    let mut rest = items;
    'names: while let [item, behind @ ..] = rest {
        if item.kind() == NAME && !begins_with_access(behind) {
            return true;
        }
        rest = behind;
    }
    false
}

/// Whether the items have groups, of which one has no ACCESS.
fn has_empty_group(kinds: &[u64], items: &[WireItem]) -> bool
    ensures { result ≡ has_empty_group kinds.now items.now }
{
    is_one_of(kinds, ACCESS) && has_bare_name(items)
}

/// Whether a flag isn't one of the command.
pub(crate) fn has_unknown_flag(opcode: Opcode, flags: u64) -> bool
    ensures { result ≡ has_unknown_flag opcode flags }
{
    match opcode {
        Opcode::Hello => flags & 14 != flags,
        Opcode::Recv | Opcode::NameAcquire => flags > 7,
        Opcode::Read | Opcode::MatchAdd => flags > 1,
        Opcode::NameList => flags > 15,
        _ => flags > 0,
    }
}

/// Whether two of the flags ACTIVATOR, HOLDER and MONITOR are set.
fn is_two_kinds(flags: u64) -> bool
    ensures { result ≡ is_two_kinds flags }
{
    flags & 6 == 6 || flags & 10 == 10 || flags & 12 == 12
}

/// Whether a connection of these flags may have a pool of this size: from 256 bytes to 1 MiB in
/// words, and none for a holder.
fn is_pool_of(flags: u64, size: u64) -> bool
    ensures { result ≡ is_pool_of flags size }
{
    if HelloFlags(flags).holder() {
        size == 0
    } else {
        256 <= size && size <= 1_048_576 && size % 8 == 0
    }
}

/// Whether a choice or a size is outside its values. The masks of a HELLO have four bits, the flags
/// of a message three; a Bloom filter has 8 to 512 bytes in words, and 1 to 8 hashes; a user and a
/// group are numbers of 32 bits.
pub(crate) fn has_bad_word(opcode: Opcode, flags: u64, own: &[u64]) -> bool
    requires { length own.now ≡ word_count opcode }
    ensures { result ≡ has_bad_word opcode flags own.now }
{
    match opcode {
        Opcode::Hello => is_two_kinds(flags)
            || !is_pool_of(flags, own[0])
            || own[1] > 15
            || own[2] > 15,
        Opcode::Send => own[1] > 7,
        Opcode::Recv => flags & 3 == 3,
        Opcode::MakeBus => !is_bloom_size(own[0]) || !is_hash_count(own[1]),
        Opcode::Enter => own[0] > 4_294_967_295 || own[1] > 4_294_967_295 || own[2] > 1,
        _ => false,
    }
}

/// Whether a Bloom filter may have so many bytes.
fn is_bloom_size(size: u64) -> bool
    ensures { result ≡ is_bloom_size size }
{
    8 <= size && size <= 512 && size % 8 == 0
}

/// Whether a bus may have so many hashes.
fn is_hash_count(hashes: u64) -> bool
    ensures { result ≡ is_hash_count hashes }
{
    1 <= hashes && hashes <= 8
}

/// Whether an item is an ACCESS whose subject or level isn't 1, 2 or 3, or whose user or group
/// isn't a number of one.
fn is_bad_access(item: &WireItem) -> bool
    ensures { result ≡ is_bad_access item.now }
{
    match item {
        WireItem::Access { subject, level, id } => {
            !(1 <= *subject && *subject <= 3)
                || !(1 <= *level && *level <= 3)
                || (*subject < 3 && *id > 4_294_967_295)
        }
        _ => false,
    }
}

/// Whether one of the items is such an ACCESS.
fn has_bad_access(items: &[WireItem]) -> bool
    ensures { result ≡ list_any is_bad_access items.now }
{
    items.iter().any(|item| is_bad_access(item))
}

/// What is wrong with the values of a command: DoubledItem, MissingItem or BadFlags, the first in
/// this order.
#[tactic(auto, unfolding(crate::specs::Refusals::flaw_of))]
pub(crate) fn flaw(opcode: Opcode, flags: u64, own: &[u64], items: &[WireItem]) -> Option<Refusal>
    requires { length own.now ≡ word_count opcode }
    ensures { result ≡ flaw_of opcode flags own.now items.now }
{
    if has_double(single_kinds(opcode, flags), items) {
        return Some(Refusal::DoubledItem);
    }
    if lacks_one(needed_kinds(opcode, flags, own), items)
        || has_empty_group(kinds_of(opcode, flags), items)
    {
        return Some(Refusal::MissingItem);
    }
    if has_unknown_flag(opcode, flags)
        || has_bad_word(opcode, flags, own)
        || has_bad_access(items)
    {
        return Some(Refusal::BadFlags);
    }
    None
}

/// Reads as many words as there is room for.
fn read_words(into: &mut [u64], bytes: &[u8])
    requires { 8 * length into.old ≤ length bytes.now }
    ensures { into.new ≡ words_from (length into.old) 0 bytes.now }
{
    'words: for place in 0..into.len() {
        into[place] = word_at(bytes, 8 * place);
    }
}

/// What is wrong with the values of a command whose words are read from these bytes.
pub(crate) fn flaw_read(
    opcode: Opcode,
    flags: u64,
    bytes: &[u8],
    items: &[WireItem],
) -> Option<Refusal>
    requires { 8 * word_count opcode ≤ length bytes.now }
    ensures { result ≡ flaw_of opcode flags (own_words opcode bytes.now) items.now }
{
    let mut room = [0; MOST_WORDS];
    let (own, _) = room.split_at_mut(opcode.words());
    read_words(own, bytes);
    flaw(opcode, flags, own, items)
}
