//! The numbers of commands.

ghost use Rattle.std.specs.Prelude.{◌≡◌, ◌≤◌, IfSome};
ghost use Rattle.kd_wire.specs.Opcodes.{opcode_number, opcode_of, word_count};

/// The greatest number of words that a command has of its own: those of a message.
pub(crate) const MOST_WORDS: usize = 8;

/// Which command a frame or a reply is of.
#[derive(Clone, Copy, Debug, PartialEq, Eq)]
pub enum Opcode {
    Hello,
    Send,
    Recv,
    Read,
    Free,
    Byebye,
    Close,
    NameAcquire,
    NameRelease,
    NameList,
    MatchAdd,
    MatchRemove,
    PolicySet,
    EndpointMake,
    MakeBus,
    Tick,
    Seal,
    Unseal,
    Enter,
}

impl Opcode {
    /// The command word of a frame, from 1 to 19.
    pub fn number(self) -> u64
        ensures { result ≡ opcode_number self }
    {
        match self {
            Opcode::Hello => 1,
            Opcode::Send => 2,
            Opcode::Recv => 3,
            Opcode::Read => 4,
            Opcode::Free => 5,
            Opcode::Byebye => 6,
            Opcode::Close => 7,
            Opcode::NameAcquire => 8,
            Opcode::NameRelease => 9,
            Opcode::NameList => 10,
            Opcode::MatchAdd => 11,
            Opcode::MatchRemove => 12,
            Opcode::PolicySet => 13,
            Opcode::EndpointMake => 14,
            Opcode::MakeBus => 15,
            Opcode::Tick => 16,
            Opcode::Seal => 17,
            Opcode::Unseal => 18,
            Opcode::Enter => 19,
        }
    }

    /// The command of this number; None where no command has it.
    pub fn of(number: u64) -> Option<Opcode>
        ensures value { result ≡ opcode_of number }
        ensures number { IfSome result (λ opcode. opcode_number opcode ≡ number) }
    {
        match number {
            1 => Some(Opcode::Hello),
            2 => Some(Opcode::Send),
            3 => Some(Opcode::Recv),
            4 => Some(Opcode::Read),
            5 => Some(Opcode::Free),
            6 => Some(Opcode::Byebye),
            7 => Some(Opcode::Close),
            8 => Some(Opcode::NameAcquire),
            9 => Some(Opcode::NameRelease),
            10 => Some(Opcode::NameList),
            11 => Some(Opcode::MatchAdd),
            12 => Some(Opcode::MatchRemove),
            13 => Some(Opcode::PolicySet),
            14 => Some(Opcode::EndpointMake),
            15 => Some(Opcode::MakeBus),
            16 => Some(Opcode::Tick),
            17 => Some(Opcode::Seal),
            18 => Some(Opcode::Unseal),
            19 => Some(Opcode::Enter),
            _ => None,
        }
    }

    /// How many words of its own a command has in its frame, behind the four that each frame begins
    /// with.
    pub(crate) fn words(self) -> usize
        ensures value { result ≡ word_count self }
        ensures few { result ≤ 8 }
    {
        match self {
            Opcode::Send => 8,
            Opcode::Hello | Opcode::Enter => 3,
            Opcode::MakeBus => 2,
            Opcode::Recv
            | Opcode::Read
            | Opcode::Free
            | Opcode::MatchAdd
            | Opcode::MatchRemove
            | Opcode::Tick
            | Opcode::Unseal => 1,
            _ => 0,
        }
    }
}
