//! The flag words of commands, each a set of bits. A contract reads the number of a flag word as
//! `flags.0`.

ghost use Rattle.std.specs.Prelude.{⊤, ◌≡◌, ◌↔◌, [], ◌∷◌, codes, IsTrue, IsSome, IfSome};
ghost use Rattle.kd_types.specs.Flags.{has_bits, has_only};

use bitflags::{Flag, Flags, bitflag_items};

/// How a connection is made: as an ordinary one, or as one of these.
#[derive(Clone, Copy, Debug, PartialEq, Eq)]
pub struct HelloFlags(pub u64);

bitflag_items! {
    impl HelloFlags: u64 {
        const ACTIVATOR = 2;
        const HOLDER = 4;
        const MONITOR = 8;
    }
}

impl Flags for HelloFlags {
    type Bits = u64;

    ghost exact = { ⊤ };

    ghost table = { (codes "ACTIVATOR", 2) ∷ (codes "HOLDER", 4) ∷ (codes "MONITOR", 8) ∷ [] };

    ghost set_of = { λ f. f.0 };

    fn flags<'a>() -> &'a [Flag<HelloFlags>] {
        HelloFlags::FLAGS
    }

    fn bits(&self) -> u64 {
        self.0
    }

    fn from_bits_retain(bits: u64) -> HelloFlags {
        HelloFlags(bits)
    }
}

impl HelloFlags {
    /// The flags of a word; None where it has an unknown bit.
    pub fn of(word: u64) -> Option<HelloFlags>
        ensures known { IsSome result ↔ IsTrue (has_only word 14) }
        ensures value { IfSome result (λ f. f.0 ≡ word) }
    {
        if word & 14 == word {
            Some(HelloFlags(word))
        } else {
            None
        }
    }

    /// The word of the flags.
    pub fn word(self) -> u64
        ensures { result ≡ self.0 }
    {
        self.0
    }

    /// Whether the connection is to be an activator.
    pub fn activator(self) -> bool
        ensures { result ≡ has_bits self.0 2 }
    {
        self.contains(HelloFlags::ACTIVATOR)
    }

    /// Whether it is to be a policy holder.
    pub fn holder(self) -> bool
        ensures { result ≡ has_bits self.0 4 }
    {
        self.contains(HelloFlags::HOLDER)
    }

    /// Whether it is to be a monitor.
    pub fn monitor(self) -> bool
        ensures { result ≡ has_bits self.0 8 }
    {
        self.contains(HelloFlags::MONITOR)
    }
}

/// How a message is sent.
#[derive(Clone, Copy, Debug, PartialEq, Eq)]
pub struct SendFlags(pub u64);

bitflag_items! {
    impl SendFlags: u64 {
        const EXPECT_REPLY = 1;
        const NO_AUTO_START = 2;
        const SIGNAL = 4;
    }
}

impl Flags for SendFlags {
    type Bits = u64;

    ghost exact = { ⊤ };

    ghost table = { (codes "EXPECT_REPLY", 1) ∷ (codes "NO_AUTO_START", 2) ∷ (codes "SIGNAL", 4) ∷ [] };

    ghost set_of = { λ f. f.0 };

    fn flags<'a>() -> &'a [Flag<SendFlags>] {
        SendFlags::FLAGS
    }

    fn bits(&self) -> u64 {
        self.0
    }

    fn from_bits_retain(bits: u64) -> SendFlags {
        SendFlags(bits)
    }
}

impl SendFlags {
    /// The flags of a word; None where it has an unknown bit.
    pub fn of(word: u64) -> Option<SendFlags>
        ensures known { IsSome result ↔ IsTrue (has_only word 7) }
        ensures value { IfSome result (λ f. f.0 ≡ word) }
    {
        if word & 7 == word {
            Some(SendFlags(word))
        } else {
            None
        }
    }

    /// The word of the flags.
    pub fn word(self) -> u64
        ensures { result ≡ self.0 }
    {
        self.0
    }

    /// Whether the sender waits for a reply until a deadline.
    pub fn expects_reply(self) -> bool
        ensures { result ≡ has_bits self.0 1 }
    {
        self.contains(SendFlags::EXPECT_REPLY)
    }

    /// Whether the message is to be refused where only an activator owns the name.
    pub fn no_auto_start(self) -> bool
        ensures { result ≡ has_bits self.0 2 }
    {
        self.contains(SendFlags::NO_AUTO_START)
    }

    /// Whether the message is a signal.
    pub fn signal(self) -> bool
        ensures { result ≡ has_bits self.0 4 }
    {
        self.contains(SendFlags::SIGNAL)
    }
}

/// How a message is received.
#[derive(Clone, Copy, Debug, PartialEq, Eq)]
pub struct RecvFlags(pub u64);

bitflag_items! {
    impl RecvFlags: u64 {
        const PEEK = 1;
        const DROP = 2;
        const PRIORITY = 4;
    }
}

impl Flags for RecvFlags {
    type Bits = u64;

    ghost exact = { ⊤ };

    ghost table = { (codes "PEEK", 1) ∷ (codes "DROP", 2) ∷ (codes "PRIORITY", 4) ∷ [] };

    ghost set_of = { λ f. f.0 };

    fn flags<'a>() -> &'a [Flag<RecvFlags>] {
        RecvFlags::FLAGS
    }

    fn bits(&self) -> u64 {
        self.0
    }

    fn from_bits_retain(bits: u64) -> RecvFlags {
        RecvFlags(bits)
    }
}

impl RecvFlags {
    /// The flags of a word; None where it has an unknown bit.
    pub fn of(word: u64) -> Option<RecvFlags>
        ensures known { IsSome result ↔ IsTrue (has_only word 7) }
        ensures value { IfSome result (λ f. f.0 ≡ word) }
    {
        if word & 7 == word {
            Some(RecvFlags(word))
        } else {
            None
        }
    }

    /// The word of the flags.
    pub fn word(self) -> u64
        ensures { result ≡ self.0 }
    {
        self.0
    }

    /// Whether the message stays queued.
    pub fn peeks(self) -> bool
        ensures { result ≡ has_bits self.0 1 }
    {
        self.contains(RecvFlags::PEEK)
    }

    /// Whether its slice is given back at once, unread.
    pub fn drops(self) -> bool
        ensures { result ≡ has_bits self.0 2 }
    {
        self.contains(RecvFlags::DROP)
    }

    /// Whether only messages within a limit of priority are meant, the most urgent first.
    pub fn has_limit(self) -> bool
        ensures { result ≡ has_bits self.0 4 }
    {
        self.contains(RecvFlags::PRIORITY)
    }
}

/// How a name is acquired.
#[derive(Clone, Copy, Debug, PartialEq, Eq)]
pub struct NameFlags(pub u64);

bitflag_items! {
    impl NameFlags: u64 {
        const REPLACE = 1;
        const ALLOW = 2;
        const QUEUE = 4;
    }
}

impl Flags for NameFlags {
    type Bits = u64;

    ghost exact = { ⊤ };

    ghost table = { (codes "REPLACE", 1) ∷ (codes "ALLOW", 2) ∷ (codes "QUEUE", 4) ∷ [] };

    ghost set_of = { λ f. f.0 };

    fn flags<'a>() -> &'a [Flag<NameFlags>] {
        NameFlags::FLAGS
    }

    fn bits(&self) -> u64 {
        self.0
    }

    fn from_bits_retain(bits: u64) -> NameFlags {
        NameFlags(bits)
    }
}

impl NameFlags {
    /// The flags of a word; None where it has an unknown bit.
    pub fn of(word: u64) -> Option<NameFlags>
        ensures known { IsSome result ↔ IsTrue (has_only word 7) }
        ensures value { IfSome result (λ f. f.0 ≡ word) }
    {
        if word & 7 == word {
            Some(NameFlags(word))
        } else {
            None
        }
    }

    /// The word of the flags.
    pub fn word(self) -> u64
        ensures { result ≡ self.0 }
    {
        self.0
    }

    /// Whether the caller asks to take the place of an owner that allows it.
    pub fn replaces(self) -> bool
        ensures { result ≡ has_bits self.0 1 }
    {
        self.contains(NameFlags::REPLACE)
    }

    /// Whether the caller lets others take its place as owner.
    pub fn allows(self) -> bool
        ensures { result ≡ has_bits self.0 2 }
    {
        self.contains(NameFlags::ALLOW)
    }

    /// Whether the caller waits in the queue where it isn't the owner.
    pub fn queues(self) -> bool
        ensures { result ≡ has_bits self.0 4 }
    {
        self.contains(NameFlags::QUEUE)
    }
}

/// What is listed.
#[derive(Clone, Copy, Debug, PartialEq, Eq)]
pub struct ListFlags(pub u64);

bitflag_items! {
    impl ListFlags: u64 {
        const UNIQUE = 1;
        const NAMES = 2;
        const ACTIVATORS = 4;
        const QUEUED = 8;
    }
}

impl Flags for ListFlags {
    type Bits = u64;

    ghost exact = { ⊤ };

    ghost table = { (codes "UNIQUE", 1) ∷ (codes "NAMES", 2) ∷ (codes "ACTIVATORS", 4) ∷ (codes "QUEUED", 8)
        ∷ [] };

    ghost set_of = { λ f. f.0 };

    fn flags<'a>() -> &'a [Flag<ListFlags>] {
        ListFlags::FLAGS
    }

    fn bits(&self) -> u64 {
        self.0
    }

    fn from_bits_retain(bits: u64) -> ListFlags {
        ListFlags(bits)
    }
}

impl ListFlags {
    /// The flags of a word; None where it has an unknown bit.
    pub fn of(word: u64) -> Option<ListFlags>
        ensures known { IsSome result ↔ IsTrue (has_only word 15) }
        ensures value { IfSome result (λ f. f.0 ≡ word) }
    {
        if word & 15 == word {
            Some(ListFlags(word))
        } else {
            None
        }
    }

    /// The word of the flags.
    pub fn word(self) -> u64
        ensures { result ≡ self.0 }
    {
        self.0
    }

    /// Whether the connections are listed by their ids.
    pub fn unique(self) -> bool
        ensures { result ≡ has_bits self.0 1 }
    {
        self.contains(ListFlags::UNIQUE)
    }

    /// Whether the owned names are listed with their owners.
    pub fn names(self) -> bool
        ensures { result ≡ has_bits self.0 2 }
    {
        self.contains(ListFlags::NAMES)
    }

    /// Whether the names of activators are listed.
    pub fn activators(self) -> bool
        ensures { result ≡ has_bits self.0 4 }
    {
        self.contains(ListFlags::ACTIVATORS)
    }

    /// Whether the queues of the names are listed.
    pub fn queued(self) -> bool
        ensures { result ≡ has_bits self.0 8 }
    {
        self.contains(ListFlags::QUEUED)
    }
}
