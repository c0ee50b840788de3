//! Asking for requests.

ghost use Rattle.std.specs.Prelude.{◌≡◌, ◌≢◌, ◌+◌, ◌^◌, ◌<◌, ◌≤◌, [], ◌∷◌, length, IfOk, IfErr};
ghost use Rattle.kd_image.specs.Images.{any};
ghost use Rattle.kd_wire.specs.Replies.{reply_length};
ghost use Rattle.kd_wire.specs.declared.reply.Reply.TheVariants as replies;
ghost use Rattle.kd_client.specs.Exchanges.{Went, outcome};
ghost use Rattle.kd_client.specs.Causes.{Broke};
ghost use Rattle.kd_client.specs.Requests.{placing, request_command, request_to};

use crate::dialogue::Dialogue;
use crate::error::ClientError;
use kd_outside::Link;
use kd_types::{Blob, ConnId, Cookie, Moment, Refusal, SendFlags};
use kd_wire::{Command, Reply, WireItem, WireItems};
use std::alloc::{AllocError, Global};

/// The command that places a request with this payload.
fn request_command(
    alloc: Global,
    cookie: Cookie,
    dst: ConnId,
    payload: Vec<u8>,
    deadline: Moment,
) -> Result<Command, AllocError>
    requires some { dst ≢ 0 }
    requires one { dst ≢ any }
    requires payload { length payload.items ≤ 130960 }
    ensures command { IfOk result
        (λ c. c ≡ request_command (request_to cookie dst) payload.items deadline) }
{
    let items = vec![in alloc; WireItem::Payload(Blob::of(payload))]?;
    Ok(Command::Send {
        flags: SendFlags::EXPECT_REPLY,
        priority: 0,
        dst: dst.0,
        source: 0,
        payload_type: 0,
        cookie: cookie.0,
        last: deadline.0,
        items: WireItems::of(items),
    })
}

impl<L: Link + Drop> Dialogue<L> {
    /// Asks for a request; its cookie where it is placed.
    #[tactic(auto, using(crate::proofs::Spoken::broke_none))]
    pub(crate) fn request(
        &mut self,
        alloc: Global,
        cookie: Cookie,
        dst: ConnId,
        payload: Vec<u8>,
        deadline: Moment,
    ) -> Result<Result<Cookie, Refusal>, ClientError>
        requires some { dst ≢ 0 }
        requires one { dst ≢ any }
        requires payload { length payload.items ≤ 130960 }
        requires few { self.old.read < 2 ^ 63 }
        ensures ok { IfOk result (λ r. Went (L.told self.old.link) (L.told self.new.link)
            self.old.read self.new.read
            (placing (request_to cookie dst) payload.items deadline r ∷ [])) }
        ensures cookie { IfOk result (λ r. IfOk r (λ c. c ≡ cookie)) }
        ensures size { IfOk result (λ r. reply_length (outcome replies.Send r) ≤ 2097152) }
        ensures err { IfErr result (Broke self.old.read (L.told self.old.link)
            (L.told self.new.link) []
            (request_command (request_to cookie dst) payload.items deadline ∷ [])) }
    {
        let command = request_command(alloc, cookie, dst, payload, deadline)?;
        let reply = self.ask(alloc, &command)?;
        match &reply {
            Reply::Send => Ok(Ok(cookie)),
            Reply::Refused(refusal) => Ok(Err(*refusal)),
            _ => unreachable!(),
        }
    }
}
