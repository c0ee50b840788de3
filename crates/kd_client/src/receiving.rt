//! Looking for the next message: it is received, read, and its slice is given back.

ghost use Rattle.std.specs.Prelude.{◌≡◌, ◌+◌, ◌^◌, ◌<◌, ◌≤◌, ℕ, List, Ok, [], ◌∷◌, IfOk, IfErr};
ghost use Rattle.kd_image.specs.Reading.{reading};
ghost use Rattle.kd_wire.specs.declared.reply.Reply.TheVariants as replies;
ghost use Rattle.kd_client.specs.Exchanges.{Went, exchange, outcome};
ghost use Rattle.kd_client.specs.Causes.{Broke};
ghost use Rattle.kd_client.specs.Requests.{meaning};
ghost use Rattle.kd_client.specs.Receptions.{IsReading, IsUnreadable, NotRead, Reception, Slice, Stopped, exchanges, found, free, read, receive, received, unreceived_next, was_read};

use crate::dialogue::Dialogue;
use crate::error::ClientError;
use crate::next::Next;
use crate::request::{Request, meaning};
use kd_image::{Image, read_image};
use kd_outside::Link;
use kd_types::{RecvFlags, Refusal, ReplyError};
use kd_wire::{Command, Reply};
use std::alloc::Global;

/// The image that the bytes of a reply at this place are.
#[tactic(auto, using(crate::proofs::Received::no_image))]
fn image_of(alloc: Global, bytes: &[u8], at: u64) -> Result<Image, ClientError>
    ensures ok { IfOk result (λ i. reading bytes.now ≡ Ok i) }
    ensures err { IfErr result (IsUnreadable at bytes.now) }
{
    match read_image(alloc, bytes) {
        Ok(image) => Ok(image),
        Err(ReplyError::OutOfMemory) => Err(ClientError::OutOfMemory),
        Err(ReplyError::Bad { .. }) => Err(ClientError::BadReply { at }),
    }
}

/// What is found where no message is received.
fn unreceived(refusal: Refusal) -> Next
    ensures { result ≡ unreceived_next refusal }
{
    match refusal {
        Refusal::NoMessage { dropped } => Next::Nothing { dropped },
        refusal => Next::Refused(refusal),
    }
}

impl<L: Link + Drop> Dialogue<L> {
    /// Receives the next message; the number of its slice.
    #[tactic(auto, using(crate::proofs::Forms::receive_forms))]
    fn receive(&mut self, alloc: Global) -> Result<Result<u64, Refusal>, ClientError>
        requires few { self.old.read < 2 ^ 63 }
        ensures ok { IfOk result (λ r. IfOk r (λ n. (s : Slice) × (s.number ≡ n)
            × Went (L.told self.old.link) (L.told self.new.link) self.old.read self.new.read
            (received s ∷ []))) }
        ensures refused { IfOk result (λ r. IfErr r (λ refusal. Went (L.told self.old.link)
            (L.told self.new.link) self.old.read self.new.read
            (exchange receive (replies.Refused refusal) ∷ []))) }
        ensures few { self.new.read ≤ self.old.read + 2097152 }
        ensures err { IfErr result (Broke self.old.read (L.told self.old.link)
            (L.told self.new.link) [] (receive ∷ [])) }
    {
        let command = Command::Recv {
            flags: RecvFlags(0),
            limit: 0,
        };
        let reply = self.ask(alloc, &command)?;
        match &reply {
            Reply::Recv { number, .. } => Ok(Ok(*number)),
            Reply::Refused(refusal) => Ok(Err(*refusal)),
            _ => unreachable!(),
        }
    }

    /// Reads the image in the slice of this number.
    #[tactic(auto, using(crate::proofs::Forms::read_forms))]
    fn read(&mut self, alloc: Global, number: u64) -> Result<Result<Image, Refusal>, ClientError>
        requires few { self.old.read < 2 ^ 63 }
        ensures ok { IfOk result (λ r. IfOk r (λ i. (bytes : List ℕ) × (reading bytes ≡ Ok i)
            × Went (L.told self.old.link) (L.told self.new.link) self.old.read self.new.read
            (was_read number bytes ∷ []))) }
        ensures refused { IfOk result (λ r. IfErr r (λ refusal. Went (L.told self.old.link)
            (L.told self.new.link) self.old.read self.new.read
            (exchange (read number) (replies.Refused refusal) ∷ []))) }
        ensures few { self.new.read ≤ self.old.read + 2097152 }
        ensures err { IfErr result (NotRead self.old.read (L.told self.old.link)
            (L.told self.new.link) number) }
    {
        let place = self.read;
        let command = Command::Read {
            sealed: false,
            number,
        };
        let reply = self.ask(alloc, &command)?;
        match &reply {
            Reply::Read { bytes } => Ok(Ok(image_of(alloc, bytes.bytes(), place)?)),
            Reply::Refused(refusal) => Ok(Err(*refusal)),
            _ => unreachable!(),
        }
    }

    /// Gives the slice of this number back.
    #[tactic(auto, using(crate::proofs::Forms::free_forms))]
    fn free(&mut self, alloc: Global, number: u64) -> Result<Result<(), Refusal>, ClientError>
        requires few { self.old.read < 2 ^ 63 }
        ensures ok { IfOk result (λ r. Went (L.told self.old.link) (L.told self.new.link)
            self.old.read self.new.read (exchange (free number) (outcome replies.Free r) ∷ [])) }
        ensures few { self.new.read ≤ self.old.read + 2097152 }
        ensures err { IfErr result (Broke self.old.read (L.told self.old.link)
            (L.told self.new.link) [] (free number ∷ [])) }
    {
        let reply = self.ask(alloc, &Command::Free { number })?;
        match &reply {
            Reply::Free => Ok(Ok(())),
            Reply::Refused(refusal) => Ok(Err(*refusal)),
            _ => unreachable!(),
        }
    }

    /// Looks for the next message, and what it is to those that wait.
    pub(crate) fn next(&mut self, alloc: Global, requests: &[Request]) -> Result<Next, ClientError>
        requires few { self.old.read < 2 ^ 62 }
        ensures ok { IfOk result (λ n. (r : Reception) × IsReading r × (n ≡ found requests.now r)
            × Went (L.told self.old.link) (L.told self.new.link) self.old.read self.new.read
            (exchanges r)) }
        ensures err { IfErr result (Stopped self.old.read (L.told self.old.link)
            (L.told self.new.link)) }
    {
        let number = match self.receive(alloc) {
            Ok(Ok(number)) => number,
            Ok(Err(refusal)) => return Ok(unreceived(refusal)),
            Err(error) => return Err(error),
        };
        let image = match self.read(alloc, number) {
            Ok(Ok(image)) => image,
            Ok(Err(refusal)) => return Ok(Next::Refused(refusal)),
            Err(error) => return Err(error),
        };
        match self.free(alloc, number) {
            Ok(Ok(())) => Ok(meaning(requests, image)),
            Ok(Err(refusal)) => Ok(Next::Refused(refusal)),
            Err(error) => Err(error),
        }
    }
}
