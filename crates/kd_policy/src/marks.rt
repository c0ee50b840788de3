//! Marks of patterns: a coarse test that spares most searches.

ghost use Rattle.std.specs.Prelude.{◌≡◌, ℕ, ◌<◌, ◌++◌, true, fold};
ghost use Rattle.kd_policy.specs.Marks.{next_mark, mark_of, mark_is_set, AreMarked};

use crate::entry::Entry;
use crate::order::NOTHING;

/// How many words of 64 marks there are. With some 32 marks for each of the 256 entries that an
/// owner may have, one search in 32 for a pattern that the owner doesn't have is made in vain, and
/// the marks of all owners still fit a processor's cache.
const WORDS: usize = 128;

/// The marks of an owner's patterns. Where the mark of a pattern isn't set the owner doesn't have
/// it: a Bloom filter of one hash.
#[derive(Debug, Drop)]
pub(crate) struct Marks {
    words: [u64; WORDS],
}

impl Marks {
    /// The marks of the patterns of these entries.
    pub(crate) fn of(entries: &[Entry]) -> Marks
        ensures { AreMarked result.words entries.now }
    {
        let mut marks = Marks { words: [0; WORDS] };
        'entries: for entry in entries {
            marks.set(mark_of(entry.pattern.bytes(), NOTHING));
        }
        marks
    }

    /// Sets one mark.
    fn set(&mut self, mark: usize)
        requires { mark < 8191 }
        ensures set { mark_is_set self.new.words mark ≡ true }
        ensures kept { (other : ℕ) → mark_is_set self.old.words other ≡ true
            → mark_is_set self.new.words other ≡ true }
    {
        self.words[mark / 64] |= 1 << (mark % 64);
    }

    /// Whether it is set.
    #[tactic(auto, using(std::proofs::lemmas::Nat::Bits::shr_and_one), unfolding(crate::specs::Marks::mark_is_set))]
    pub(crate) fn has(&self, mark: usize) -> bool
        requires { mark < 8191 }
        ensures { result ≡ mark_is_set self.now.words mark }
    {
        (self.words[mark / 64] >> (mark % 64)) & 1 == 1
    }
}

/// The mark of the pattern that is `front` with `back` behind it.
#[tactic(auto, using(crate::proofs::Marking::mark_parts))]
pub(crate) fn mark_of(front: &[u8], back: &[u8]) -> usize
    ensures mark { result ≡ mark_of (front.now ++ back.now) }
    ensures inside { result < 8191 }
{
    mark_behind(mark_behind(0, front), back)
}

/// The mark of a text, from that of its front.
fn mark_behind(front: usize, back: &[u8]) -> usize
    requires { front < 8191 }
    ensures mark { result ≡ fold next_mark front back.now }
    ensures inside { result < 8191 }
{
    let mut mark = front;
    'bytes: for byte in back {
        mark = (mark * 257 + usize::from(*byte)) % 8191;
    }
    mark
}
