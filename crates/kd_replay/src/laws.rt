//! What holds of all frames. Nothing is run here; each function's contract is a law.

ghost use Rattle.std.specs.Prelude.{◌≡◌, ℕ, List};
ghost use Rattle.kd_world.specs.State.{World};
ghost use Rattle.kd_replay.specs.Turns.{Turn, replay_world};
ghost use Rattle.kd_replay.specs.Transcript.{Answered, AreRun, IsTranscript, IsTurn};

/// What a frame comes to is determined by the world and the frame.
pub fn a_frame_has_one_turn()
    ensures { (w : World) (frame : List ℕ) (turn other : Turn) → IsTurn w frame turn
        → IsTurn w frame other → turn ≡ other }
{}

/// The replies to frames are determined by them.
pub fn frames_have_one_transcript()
    ensures { (frames : List (List ℕ)) (written other : List ℕ) → IsTranscript frames written
        → IsTranscript frames other → written ≡ other }
{}

/// A run over frames is a run of legal events, which end in its world and tell its replies; so what
/// is proved of every list of them holds of it.
pub fn frames_are_run_by_legal_events()
    ensures { (frames : List (List ℕ)) (written : List ℕ) (end : World)
        → Answered replay_world frames written end → AreRun replay_world frames end }
{}
