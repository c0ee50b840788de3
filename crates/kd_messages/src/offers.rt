//! Offers of one message to its receivers.

ghost use Rattle.std.specs.Prelude.{◌≡◌, ◌<◌, ◌^◌, ◌++◌, [], ◌∷◌, OnOk, OnErr, IfOk, IfErr, Some, None, map, true, false};
ghost use Rattle.std.specs.List.{AllByRecursion};
ghost use Rattle.kd_wire.specs.declared.reply.Reply.TheVariants as reply;
ghost use Rattle.kd_image.specs.Images.{front, image_length, laid};
ghost use Rattle.kd_tables.specs.Drafts.{IsVisitable, StandByOffers, is_offer, parts_with, part_with};
ghost use Rattle.kd_messages.specs.Sending.{TellsNames, letter_offer, when_told};
ghost use Rattle.kd_commands.specs.State.{is_monitor, monitors};

use crate::attaching::{attached, names_to_tell};
use crate::sharing::Parcel;
use bytes::Bytes;
use kd_commands::{Conn, WhoKind};
use kd_image::{Attached, Message, build, image_len, is_short};
use kd_said::lay;
use kd_seal::Sealed;
use kd_tables::{Change, Content, Desk, Part, Plan};
use kd_types::{Blob, Kind, Refusal, Text};
use kd_wire::Reply;
use std::alloc::{AllocError, Global};
use std::marker::Model;

/// Parts that are offers, each with its content. A contract sees them as the parts of a plan.
#[derive(Drop)]
pub(crate) struct Offers {
    parts: Vec<Part>,
    contents: Vec<Option<Content>>,
}

impl Model for Offers {
    ghost use Rattle.std.specs.Prelude.{List};
    ghost use Rattle.kd_tables.specs.Drafts.{AreOffers, parts_with};
    ghost use Rattle.kd_commands.specs.Plans as plans;

    ghost Value = { List plans.Part };

    ghost view = { λ o. parts_with o.contents.items o.parts.items };

    ghost invariant = { λ o. AreOffers o.contents.items o.parts.items };
}

impl Offers {
    #[tactic(auto, using(kd_tables::proofs::Visits::nothing_offered))]
    pub(crate) fn new(alloc: Global) -> Offers
        ensures { result ≡ [] }
    {
        Offers {
            parts: Vec::new(alloc),
            contents: Vec::new(alloc),
        }
    }

    fn push(&mut self, part: Part, content: Content) -> Result<(), AllocError>
        requires visitable { IsVisitable part }
        requires offer { is_offer part ≡ true }
        ensures { OnOk result (self.new ≡ self.old ++ part_with (Some content) part ∷ []) }
    {
        self.parts.reserve(1)?;
        self.contents.push(Some(content))?;
        self.parts.push(part).unwrap();
        Ok(())
    }

    /// The plan of a message, which is these offers.
    pub(crate) fn into_plan(self, change: Change, after: WhoKind) -> Plan
        ensures parts { parts_with result.contents result.parts ≡ self }
        ensures visitable { AllByRecursion IsVisitable result.parts }
        ensures contents { StandByOffers result.contents result.parts }
        ensures reply { result.reply ≡ reply.Send }
        ensures change { result.change ≡ change }
        ensures after { result.after ≡ after }
    {
        Plan {
            parts: self.parts,
            contents: self.contents,
            reply: Reply::Send,
            change,
            after,
        }
    }
}

/// A message on its way: with the payloads and the sealed bytes that all its receivers share, the
/// names of its sender that may be attached, and the id that its images name as destination.
#[derive(Drop)]
pub(crate) struct Letter {
    message: Message,
    payload: Bytes<Global>,
    share: Option<Sealed>,
    pub(crate) names: Vec<Text>,
    dst: u64,
}

/// Whether it is shown what others are told.
pub fn is_monitor(conn: &Conn) -> bool
    ensures { result ≡ is_monitor conn.now.kind }
{
    matches!(conn.kind, Kind::Monitor)
}

/// One share more of the sealed bytes that a message takes along, if it takes any.
fn share_again(share: &Option<Sealed>) -> Result<Option<Sealed>, AllocError>
    ensures { IfOk result (λ again. again ≡ share.now) }
{
    match share {
        Some(sealed) => Ok(Some(sealed.clone()?)),
        None => Ok(None),
    }
}

/// The content of the letter with this attached: a prefix of its own, and the payloads and the
/// sealed bytes that are shared.
fn content_for(
    alloc: Global,
    sender: &Conn,
    letter: &Letter,
    attached: &Attached,
) -> Result<Content, AllocError>
    requires { image_length letter.now.message attached.now < 2 ^ 32 }
    ensures { IfOk result (λ c.
        c
        ≡ record {
          image =
              front letter.now.message sender.now.id letter.now.dst attached.now
              ++ letter.now.payload;
          shared = letter.now.share;
          priority = letter.now.message.priority;
        }) }
{
    let prefix = build(alloc, &letter.message, sender.id, letter.dst, attached)?;
    Ok(Content {
        prefix: Blob::of(prefix),
        payload: letter.payload.clone()?,
        shared: share_again(&letter.share)?,
        priority: letter.message.priority,
    })
}

impl Letter {
    /// The letter of a message; its payloads are laid out once, for all its receivers.
    pub(crate) fn of(
        alloc: Global,
        parcel: Parcel,
        names: Vec<Text>,
        dst: u64,
    ) -> Result<Letter, AllocError>
        ensures message { IfOk result (λ l. l.message ≡ parcel.message) }
        ensures payload { IfOk result (λ l. l.payload ≡ laid parcel.message.payloads) }
        ensures share { IfOk result (λ l. l.share ≡ parcel.share) }
        ensures names { IfOk result (λ l. l.names.items ≡ names.items) }
        ensures dst { IfOk result (λ l. l.dst ≡ dst) }
    {
        let Parcel { message, share } = parcel;
        let payload = Bytes::from_vec(lay(alloc, message.payloads.blobs())?)?;
        Ok(Letter {
            message,
            payload,
            share,
            names,
            dst,
        })
    }
}

/// One offer more, of the letter to this receiver.
#[tactic(auto, unfolding(crate::specs::Sending::letter_offer))]
fn offer(
    desk: &Desk,
    alloc: Global,
    offers: &mut Offers,
    sender: &Conn,
    letter: &Letter,
    receiver: &Conn,
    must: bool,
) -> Result<(), Refusal>
    requires laid { letter.now.payload ≡ laid letter.now.message.payloads }
    requires names { TellsNames desk.now sender.now letter.now.names.items }
    requires seat { receiver.now.seat < 64 }
    ensures ok { OnOk result (offers.new
        ≡ offers.old
        ++ letter_offer desk.now sender.now letter.now.message letter.now.share
        letter.now.dst must receiver.now
        ∷ []) }
    ensures err { IfErr result (λ e. e ≡ Refusal.OutOfMemory) }
{
    let attached = attached(desk, alloc, sender, &letter.names, receiver)?;
    // A message that isn't too long and 64 names don't come near this length.
    if !is_short(&letter.message, &attached) {
        return Err(Refusal::OutOfMemory);
    }
    let content = content_for(alloc, sender, letter, &attached)?;
    let part = Part::Offer {
        seat: receiver.seat,
        user: sender.creds.uid,
        len: image_len(&letter.message, &attached) as u32,
        from: sender.id,
        must,
    };
    offers.push(part, content)?;
    Ok(())
}

/// One offer more, of the letter to this connection, if it is told: it may let it go by.
pub(crate) fn offer_where(
    desk: &Desk,
    alloc: Global,
    offers: &mut Offers,
    sender: &Conn,
    letter: &Letter,
    conn: &Conn,
    told: bool,
) -> Result<(), Refusal>
    requires laid { letter.now.payload ≡ laid letter.now.message.payloads }
    requires names { TellsNames desk.now sender.now letter.now.names.items }
    requires seat { conn.now.seat < 64 }
    ensures ok { OnOk result (offers.new
        ≡ offers.old
        ++ when_told told
        (letter_offer desk.now sender.now letter.now.message letter.now.share
        letter.now.dst false conn.now)) }
    ensures err { IfErr result (λ e. e ≡ Refusal.OutOfMemory) }
{
    if !told {
        return Ok(());
    }
    offer(desk, alloc, offers, sender, letter, conn, false)
}

/// The offers of a message to this receiver, which must be placed, and to each monitor.
pub(crate) fn unicast_offers(
    desk: &Desk,
    alloc: Global,
    sender: &Conn,
    parcel: Parcel,
    receiver: &Conn,
) -> Result<Offers, Refusal>
    requires seat { receiver.now.seat < 64 }
    ensures ok { IfOk result (λ o.
        o
        ≡ letter_offer desk.now sender.now parcel.message parcel.share receiver.now.id
        true receiver.now
        ∷ map (letter_offer desk.now sender.now parcel.message parcel.share receiver.now.id
        false) (monitors desk.now)) }
    ensures err { IfErr result (λ e. e ≡ Refusal.OutOfMemory) }
{
    let names = names_to_tell(desk, alloc, sender)?;
    let letter = Letter::of(alloc, parcel, names, receiver.id.0)?;
    let mut offers = Offers::new(alloc);
    offer(desk, alloc, &mut offers, sender, &letter, receiver, true)?;
    'monitors: for conn in &desk.conns {
        offer_where(
            desk,
            alloc,
            &mut offers,
            sender,
            &letter,
            conn,
            is_monitor(conn),
        )?;
    }
    Ok(offers)
}
