//! Where frames come from.

ghost use Rattle.std.specs.Prelude.{◌≡◌};
ghost use Rattle.kd_wire.specs.Ports.{takes_caller, takes_opcode};

use crate::opcode::Opcode;

/// Where a frame comes from, which decides who its caller may be and which commands there are.
#[derive(Clone, Copy, Debug, PartialEq, Eq)]
pub enum Port {
    /// A recorded input of 64 callers, numbered from 1. The bus is there already, so no bus is
    /// made.
    Replay,
    /// A connected socket, whose caller is known from the socket and written as 0. It doesn't enter
    /// by a command.
    Session,
}

impl Port {
    /// Whether a frame may name this caller: 1 to 64 in a replay, 0 in a session.
    pub fn takes_caller(self, caller: u64) -> bool
        ensures { result ≡ takes_caller self caller }
    {
        match self {
            Port::Replay => 1 <= caller && caller <= 64,
            Port::Session => caller == 0,
        }
    }

    /// Whether the command is one of this place: a replay makes no bus, and a session has no
    /// command to enter.
    pub fn takes_opcode(self, opcode: Opcode) -> bool
        ensures { result ≡ takes_opcode self opcode }
    {
        match self {
            Port::Replay => opcode != Opcode::MakeBus,
            Port::Session => opcode != Opcode::Enter,
        }
    }
}
