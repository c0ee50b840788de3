//! What holds of all frames: writing and reading undo each other, and a stream of frames is cut in
//! one way. Nothing is run here; each function's contract is a law.

ghost use Rattle.std.specs.Prelude.{◌≡◌, ℕ, ◌^◌, ◌<◌, ◌↔◌, true, List, [], ◌++◌, None, Ok};
ghost use Rattle.kd_wire.specs.declared.port.Port.{Port};
ghost use Rattle.kd_wire.specs.declared.command.Command.{Command};
ghost use Rattle.kd_wire.specs.Ports.{takes_caller, takes_opcode};
ghost use Rattle.kd_wire.specs.Commands.{opcode_in};
ghost use Rattle.kd_wire.specs.Frames.{frame_of};
ghost use Rattle.kd_wire.specs.Refusals.{refusal_of, IsWellFormed};
ghost use Rattle.kd_wire.specs.WellFormed.{is_well_formed};
ghost use Rattle.kd_wire.specs.declared.reply.Reply.{Reply};
ghost use Rattle.kd_wire.specs.Replies.{IsReplyTo, reply_frame, reply_length};
ghost use Rattle.kd_wire.specs.ReplyReading.{reply_in};
ghost use Rattle.kd_wire.specs.Typed.{IsTyped, IsTypedReply};

/// A well-formed command that is written is read: its frame has no refusal where the place has the
/// command and admits the caller. So what is read of it is what was written, by the next law.
pub fn what_is_written_is_read()
    ensures { (port : Port) (caller : ℕ) (command : Command) → IsTyped command
        → IsWellFormed command → caller < 2 ^ 64 → takes_caller port caller ≡ true
        → takes_opcode port (opcode_in command) ≡ true
        → refusal_of port (frame_of caller command) ≡ None }
{}

/// No two commands, nor one from two callers, have the same frame.
pub fn a_frame_has_one_value()
    ensures { (caller other : ℕ) (command second : Command) → IsTyped command → IsTyped second
        → IsWellFormed command → IsWellFormed second → caller < 2 ^ 64 → other < 2 ^ 64
        → frame_of caller command ≡ frame_of other second → (caller ≡ other) × (command ≡ second) }
{}

/// No frame is the beginning of another.
pub fn no_frame_begins_another()
    ensures { (caller other : ℕ) (command second : Command) (rest : List ℕ) → IsTyped command
        → IsTyped second → IsWellFormed command → IsWellFormed second → caller < 2 ^ 64
        → other < 2 ^ 64 → frame_of caller command ++ rest ≡ frame_of other second → rest ≡ [] }
{}

/// The test of a command tells whether it is well formed, which [`crate::write_command`] requires.
pub fn the_test_tells_well_formed_commands()
    ensures { (command : Command) → (is_well_formed command ≡ true) ↔ IsWellFormed command }
{}

/// A reply that is written is read, as the same reply.
pub fn a_written_reply_is_read()
    ensures { (command caller : ℕ) (reply : Reply) → IsTypedReply reply → command < 2 ^ 64
        → caller < 2 ^ 64 → IsReplyTo command reply → reply_length reply < 2 ^ 63
        → reply_in (reply_frame command caller reply) ≡ Ok reply }
{}
