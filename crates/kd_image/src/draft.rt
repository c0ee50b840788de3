//! What the items of a message say, as far as they are read.

ghost use Rattle.std.specs.Prelude.{◌≡◌, ◌^◌, ◌≤◌, IsTrue, IfOk, IfErr, IfSome, IfNone, vec_len};
ghost use Rattle.std.specs.Str.{is_utf8};
ghost use Rattle.kd_image.specs.Items.{Contents, begins, rising};
ghost use Rattle.kd_item.specs.Reading.{item_entry};
ghost use Rattle.kd_image.specs.Reading.{blank, if_taken, no_description, no_item, no_moment, no_name, no_payload, with_creds, with_description, with_item, with_moment, with_name, with_off, with_owned, with_shared};

use crate::kind::{CREDS, DESCRIPTION, DST_NAME, MOMENT, OFF, OWNED, SHARED};
use crate::message::SealedRange;
use crate::order::may_follow;
use kd_item::{Item, padding, word_at};
use kd_types::{Creds, Moment, ReplyError, Text};
use std::alloc::Global;
use std::marker::Model;
use std::str;

/// The most payloads of a message.
const PAYLOADS: usize = 16;

/// Whether the bytes are a text.
pub(crate) fn is_text(bytes: &[u8]) -> bool
    ensures { result ≡ is_utf8 bytes.now }
{
    match str::from_utf8(bytes) {
        Ok(_) => true,
        Err(_) => false,
    }
}

/// Where the bytes of one more payload begin; None where no number says it.
fn begin_behind(size: u64, lengths: &[u64]) -> Option<u64>
    ensures some { IfSome result (λ n. n ≡ begins size lengths.now) }
    ensures none { IfNone result (2 ^ 64 ≤ begins size lengths.now) }
{
    let mut at = size;
    'lengths: for length in lengths {
        at = at.checked_add(*length)?;
        at = at.checked_add(padding(*length as usize) as u64)?;
    }
    Some(at)
}

/// What the items before a place say.
#[derive(Drop)]
pub(crate) struct Draft {
    pub(crate) creds: Option<Creds>,
    pub(crate) names: Vec<Text>,
    pub(crate) description: Option<Text>,
    pub(crate) moment: Option<Moment>,
    pub(crate) name: Option<Text>,
    pub(crate) lengths: Vec<u64>,
    pub(crate) range: Option<SealedRange>,
}

impl Model for Draft {
    ghost Value = { Contents };

    ghost invariant = { λ d. (vec_len d.lengths ≤ 16) × IsTrue (rising d.names.items) };

    ghost view = { λ d.
        record {
          creds = d.creds;
          names = d.names.items;
          description = d.description;
          moment = d.moment;
          name = d.name;
          lengths = d.lengths.items;
          range = d.range;
        } };
}

impl Draft {
    /// What no item says.
    pub(crate) fn blank(alloc: Global) -> Draft
        ensures { result ≡ blank }
    {
        Draft {
            creds: None,
            names: Vec::new(alloc),
            description: None,
            moment: None,
            name: None,
            lengths: Vec::new(alloc),
            range: None,
        }
    }

    fn no_payload(&self) -> bool
        ensures { result ≡ no_payload self.now }
    {
        self.lengths.is_empty() && self.range.is_none()
    }

    fn no_name(&self) -> bool
        ensures { result ≡ no_name self.now }
    {
        self.name.is_none() && self.no_payload()
    }

    fn no_moment(&self) -> bool
        ensures { result ≡ no_moment self.now }
    {
        self.moment.is_none() && self.no_name()
    }

    fn no_description(&self) -> bool
        ensures { result ≡ no_description self.now }
    {
        self.description.is_none() && self.no_moment()
    }

    fn no_item(&self) -> bool
        ensures { result ≡ no_item self.now }
    {
        self.creds.is_none() && (self.names.is_empty() && self.no_description())
    }

    #[tactic(auto, unfolding(crate::specs::Reading::with_creds))]
    fn add_creds(&mut self, body: &[u8]) -> bool
        ensures { if_taken result self.new ≡ with_creds self.old body.now }
    {
        if !self.no_item() {
            return false;
        }
        if body.len() != 24 {
            return false;
        }
        let uid = word_at(body, 0);
        let gid = word_at(body, 8);
        let privileged = word_at(body, 16);
        if !(uid < 1 << 32) {
            return false;
        }
        if !(gid < 1 << 32) {
            return false;
        }
        if !(privileged < 2) {
            return false;
        }
        self.creds = Some(Creds {
            uid: uid as u32,
            gid: gid as u32,
            privileged: privileged == 1,
        });
        true
    }

    #[tactic(auto, unfolding(crate::specs::Reading::with_owned))]
    fn add_owned(&mut self, alloc: Global, body: &[u8]) -> Result<bool, ReplyError>
        ensures ok { IfOk result (λ taken. if_taken taken self.new ≡ with_owned self.old body.now) }
        ensures err { IfErr result (λ e. e ≡ ReplyError.OutOfMemory) }
    {
        if !self.no_description() {
            return Ok(false);
        }
        if !is_text(body) {
            return Ok(false);
        }
        if !may_follow(&self.names, body) {
            return Ok(false);
        }
        self.names.push(Text::of(alloc, body)?)?;
        Ok(true)
    }

    #[tactic(auto, unfolding(crate::specs::Reading::with_description))]
    fn add_description(&mut self, alloc: Global, body: &[u8]) -> Result<bool, ReplyError>
        ensures ok { IfOk result
            (λ taken. if_taken taken self.new ≡ with_description self.old body.now) }
        ensures err { IfErr result (λ e. e ≡ ReplyError.OutOfMemory) }
    {
        if !self.no_description() {
            return Ok(false);
        }
        if 255 < body.len() {
            return Ok(false);
        }
        if !is_text(body) {
            return Ok(false);
        }
        self.description = Some(Text::of(alloc, body)?);
        Ok(true)
    }

    #[tactic(auto, unfolding(crate::specs::Reading::with_moment))]
    fn add_moment(&mut self, body: &[u8]) -> bool
        ensures { if_taken result self.new ≡ with_moment self.old body.now }
    {
        if !self.no_moment() {
            return false;
        }
        if body.len() != 8 {
            return false;
        }
        self.moment = Some(Moment(word_at(body, 0)));
        true
    }

    #[tactic(auto, unfolding(crate::specs::Reading::with_name))]
    fn add_name(&mut self, alloc: Global, body: &[u8]) -> Result<bool, ReplyError>
        ensures ok { IfOk result (λ taken. if_taken taken self.new ≡ with_name self.old body.now) }
        ensures err { IfErr result (λ e. e ≡ ReplyError.OutOfMemory) }
    {
        if !self.no_name() {
            return Ok(false);
        }
        if !is_text(body) {
            return Ok(false);
        }
        self.name = Some(Text::of(alloc, body)?);
        Ok(true)
    }

    #[tactic(auto, unfolding(crate::specs::Reading::with_off))]
    fn add_off(&mut self, size: u64, body: &[u8]) -> Result<bool, ReplyError>
        ensures ok { IfOk result
            (λ taken. if_taken taken self.new ≡ with_off size self.old body.now) }
        ensures err { IfErr result (λ e. e ≡ ReplyError.OutOfMemory) }
    {
        if body.len() != 16 {
            return Ok(false);
        }
        if !(self.lengths.len() < PAYLOADS) {
            return Ok(false);
        }
        let Some(begin) = begin_behind(size, &self.lengths) else {
            return Ok(false);
        };
        if begin != word_at(body, 8) {
            return Ok(false);
        }
        self.lengths.push(word_at(body, 0))?;
        Ok(true)
    }

    #[tactic(auto, unfolding(crate::specs::Reading::with_shared))]
    fn add_shared(&mut self, body: &[u8]) -> bool
        ensures { if_taken result self.new ≡ with_shared self.old body.now }
    {
        if !self.range.is_none() {
            return false;
        }
        if body.len() != 16 {
            return false;
        }
        self.range = Some(SealedRange {
            place: self.lengths.len() as u32,
            start: word_at(body, 0),
            length: word_at(body, 8),
        });
        true
    }

    /// Takes the item in, if it may stand behind those before it. Size is what the header says of
    /// header and items.
    #[tactic(auto, unfolding(crate::specs::Reading::with_item))]
    pub(crate) fn add(
        &mut self,
        alloc: Global,
        size: u64,
        item: Item<'_>,
    ) -> Result<bool, ReplyError>
        ensures ok { IfOk result
            (λ taken. if_taken taken self.new ≡ with_item size self.old (item_entry item.entry)) }
        ensures err { IfErr result (λ e. e ≡ ReplyError.OutOfMemory) }
    {
        match item.kind {
            CREDS => Ok(self.add_creds(item.body)),
            OWNED => self.add_owned(alloc, item.body),
            DESCRIPTION => self.add_description(alloc, item.body),
            MOMENT => Ok(self.add_moment(item.body)),
            DST_NAME => self.add_name(alloc, item.body),
            OFF => self.add_off(size, item.body),
            SHARED => Ok(self.add_shared(item.body)),
            _ => Ok(false),
        }
    }
}
