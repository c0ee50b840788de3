//! The kinds of items, and which of them each command takes.

ghost use Rattle.std.specs.Prelude.{◌≡◌, length};
ghost use Rattle.kd_wire.specs.Kinds.{kinds_of, single_kinds, needed_kinds, is_one_of, how_many, ends_in_group};
ghost use Rattle.kd_wire.specs.Opcodes.{word_count};

use crate::item::WireItem;
use crate::opcode::Opcode;
use kd_types::HelloFlags;

pub(crate) const PAYLOAD: u64 = 1;

pub(crate) const SEALED: u64 = 2;

pub(crate) const DST_NAME: u64 = 3;

pub(crate) const FILTER: u64 = 4;

pub(crate) const MASK: u64 = 5;

pub(crate) const NAME: u64 = 6;

pub(crate) const ACCESS: u64 = 7;

pub(crate) const BUS: u64 = 8;

pub(crate) const ENDPOINT: u64 = 9;

pub(crate) const DESCRIPTION: u64 = 10;

pub(crate) const ID: u64 = 11;

pub(crate) const ID_ADD: u64 = 12;

pub(crate) const ID_REMOVE: u64 = 13;

pub(crate) const NAME_ADD: u64 = 14;

pub(crate) const NAME_REMOVE: u64 = 15;

pub(crate) const NAME_CHANGE: u64 = 16;

/// The kinds of items that a command takes, by the flags of its frame. A group is a NAME and the
/// ACCESS items behind it.
pub(crate) fn kinds_of(opcode: Opcode, flags: u64) -> &'static [u64]
    ensures { result.now ≡ kinds_of opcode flags }
{
    match opcode {
        Opcode::Hello => {
            if HelloFlags(flags).activator() {
                &[NAME, BUS, ENDPOINT, DESCRIPTION]
            } else if HelloFlags(flags).holder() {
                &[NAME, ACCESS, BUS, ENDPOINT, DESCRIPTION]
            } else {
                &[BUS, ENDPOINT, DESCRIPTION]
            }
        }
        Opcode::Send => &[PAYLOAD, SEALED, DST_NAME, FILTER],
        Opcode::NameAcquire | Opcode::NameRelease => &[NAME],
        Opcode::MatchAdd => &[
            MASK,
            NAME,
            ID,
            ID_ADD,
            ID_REMOVE,
            NAME_ADD,
            NAME_REMOVE,
            NAME_CHANGE,
        ],
        Opcode::PolicySet => &[NAME, ACCESS],
        Opcode::EndpointMake => &[NAME, ACCESS, BUS, ENDPOINT],
        Opcode::MakeBus => &[BUS],
        Opcode::Seal => &[PAYLOAD],
        _ => &[],
    }
}

/// The kinds of which a command takes one at most.
pub(crate) fn single_kinds(opcode: Opcode, flags: u64) -> &'static [u64]
    ensures { result.now ≡ single_kinds opcode flags }
{
    match opcode {
        Opcode::Hello => {
            if HelloFlags(flags).activator() {
                &[NAME, BUS, ENDPOINT, DESCRIPTION]
            } else {
                &[BUS, ENDPOINT, DESCRIPTION]
            }
        }
        Opcode::Send => &[SEALED, DST_NAME, FILTER],
        Opcode::NameAcquire | Opcode::NameRelease => &[NAME],
        Opcode::EndpointMake => &[BUS, ENDPOINT],
        Opcode::MakeBus => &[BUS],
        Opcode::Seal => &[PAYLOAD],
        _ => &[],
    }
}

/// The kinds of which a command needs one. A message to the id 0 goes to a name, and one to all
/// ones goes to whom its filter fits.
pub(crate) fn needed_kinds(opcode: Opcode, flags: u64, own: &[u64]) -> &'static [u64]
    requires { length own.now ≡ word_count opcode }
    ensures { result.now ≡ needed_kinds opcode flags own.now }
{
    match opcode {
        Opcode::Hello => {
            if HelloFlags(flags).activator() {
                &[NAME]
            } else {
                &[]
            }
        }
        Opcode::Send => {
            let dst = own[3];
            if dst == 0 {
                &[DST_NAME]
            } else if dst == u64::MAX {
                &[FILTER]
            } else {
                &[]
            }
        }
        Opcode::NameAcquire | Opcode::NameRelease => &[NAME],
        Opcode::EndpointMake => &[ENDPOINT],
        Opcode::MakeBus => &[BUS],
        Opcode::Seal => &[PAYLOAD],
        _ => &[],
    }
}

/// Whether the kind is one of these.
pub(crate) fn is_one_of(kinds: &[u64], kind: u64) -> bool
    ensures { result ≡ is_one_of kinds.now kind }
{
    kinds.contains(&kind)
}

/// How many of the items are of this kind.
pub(crate) fn how_many(kind: u64, items: &[WireItem]) -> usize
    ensures { result ≡ how_many kind items.now }
{
    items.iter().filter(|item| item.kind() == kind).count()
}

/// Whether the last of the items is a NAME, or an ACCESS of its group.
pub(crate) fn ends_in_group(items: &[WireItem]) -> bool
    ensures { result ≡ ends_in_group items.now }
{
    match items.last() {
        None => false,
        Some(item) => item.kind() == NAME || item.kind() == ACCESS,
    }
}
