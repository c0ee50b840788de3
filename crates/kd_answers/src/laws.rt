//! How long replies are. Nothing is run here; each function's contract is a law.

ghost use Rattle.kd_answers.specs.Reads.{ReadsFitTheirPool};
ghost use Rattle.kd_answers.specs.Short.{LeaversAreAnsweredShortly, PlansAnswerShortly};

/// A settled desk answers each command that it doesn't refuse by at most 1,198,120 bytes.
pub fn plans_answer_shortly()
    ensures { PlansAnswerShortly }
{}

/// Along every list of legal events whoever holds the desk is answered by one of its command's
/// replies, of at most 1,198,120 bytes.
pub fn leavers_are_answered_shortly()
    ensures { LeaversAreAnsweredShortly }
{}

/// Along every list of legal events a read of a slice is answered by no more bytes than its pool
/// has; of the read of a slice's share nothing is said.
pub fn reads_fit_their_pool()
    ensures { ReadsFitTheirPool }
{}
