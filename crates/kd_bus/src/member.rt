//! What a caller of a shared bus is.
ghost use Rattle.std.specs.Prelude.{◌≡◌};
ghost use Rattle.kd_world.specs.Hands.{empty_hand};
ghost use Rattle.kd_world.specs.Planner.{is_fresh};
ghost use Rattle.kd_bus.specs.Members.{is_conn, member_after, newly, who_of};

use crate::conn::Conn;
use kd_desk::{Who, WhoKind};
use kd_holds::Hand;
use kd_types::{Creds, Kind};

/// Who keeps an endpoint that it made.
#[derive(Clone, Copy, Debug)]
pub struct Keeper {
    pub creds: Creds,
    /// The number of the endpoint.
    pub endpoint: u8,
    /// The slot of its bus in a domain, 0 outside one.
    pub slot: u8,
    /// Which bus of the slot it is of.
    pub generation: u64,
}

/// Who made the bus of a slot.
#[derive(Clone, Copy, Debug)]
pub struct Maker {
    pub creds: Creds,
    pub slot: u8,
    pub generation: u64,
}

/// What a caller is: nothing yet, a connection, or who made an endpoint or the bus.
#[derive(Debug, Drop)]
pub enum Member {
    Fresh { creds: Creds },
    Conn(Conn),
    Keeper(Keeper),
    Maker(Maker),
}

/// Whether it is a connection, of this bus or of one before it.
fn is_conn(member: &WhoKind) -> bool
    ensures { result ≡ is_conn member.now }
{
    matches!(member, WhoKind::Conn { .. } | WhoKind::Old(_))
}

/// Whether it is nothing yet, or nothing any more.
fn is_nothing(member: &WhoKind) -> bool
    ensures { result ≡ is_fresh member.now }
{
    matches!(member, WhoKind::Fresh)
}

/// What a command made of whoever was nothing.
fn newly(generation: u64, kind: Kind, creds: Creds, becomes: &WhoKind, hand: Hand) -> Member
    requires hand { hand ≡ empty_hand }
    ensures { result ≡ newly generation kind creds becomes.now }
{
    match becomes {
        WhoKind::Conn { id, seat } => Member::Conn(Conn {
            creds,
            id: *id,
            seat: *seat,
            slot: 0,
            generation,
            kind,
            hand,
        }),
        WhoKind::Keeper(endpoint) => Member::Keeper(Keeper {
            creds,
            endpoint: *endpoint,
            slot: 0,
            generation,
        }),
        WhoKind::Fresh | WhoKind::Old(_) => Member::Fresh { creds },
    }
}

impl Member {
    /// Who it is at the desk of the slot's bus of this generation: a connection or a keeper of
    /// another bus is an old one. Who made a bus may only close it, which isn't the desk's.
    pub(crate) fn who(&self, generation: u64) -> Who
        ensures { result ≡ who_of generation self.now }
    {
        match self {
            Member::Fresh { creds } => Who {
                creds: *creds,
                member: WhoKind::Fresh,
            },
            Member::Conn(conn) => Who {
                creds: conn.creds,
                member: if conn.generation == generation {
                    WhoKind::Conn {
                        id: conn.id,
                        seat: conn.seat,
                    }
                } else {
                    WhoKind::Old(Some(conn.seat))
                },
            },
            Member::Keeper(keeper) => Who {
                creds: keeper.creds,
                member: if keeper.generation == generation {
                    WhoKind::Keeper(keeper.endpoint)
                } else {
                    WhoKind::Old(None)
                },
            },
            Member::Maker(maker) => Who {
                creds: maker.creds,
                member: WhoKind::Old(None),
            },
        }
    }

    /// It is what its command made of it at the slot's bus of this generation: a connection of the
    /// kind, with the hand that was told nothing, or a keeper; or it is nothing any more.
    pub(crate) fn turn(&mut self, generation: u64, kind: Kind, becomes: &WhoKind, hand: Hand)
        requires hand { hand ≡ empty_hand }
        ensures { self.new ≡ member_after generation kind becomes.now self.old }
    {
        match self {
            Member::Fresh { creds } => {
                let creds = *creds;
                *self = newly(generation, kind, creds, becomes, hand);
            }
            Member::Conn(conn) => {
                if !is_conn(becomes) {
                    let creds = conn.creds;
                    *self = Member::Fresh { creds };
                }
            }
            Member::Keeper(keeper) => {
                if is_nothing(becomes) {
                    let creds = keeper.creds;
                    *self = Member::Fresh { creds };
                }
            }
            Member::Maker(maker) => {
                if is_nothing(becomes) {
                    let creds = maker.creds;
                    *self = Member::Fresh { creds };
                }
            }
        }
    }
}
