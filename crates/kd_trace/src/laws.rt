//! What holds of all traces. Nothing is run here; each function's contract is a law. So bytes have
//! one verdict, or one place that breaks them, and never both.

ghost use Rattle.std.specs.Prelude.{◌≡◌, ℕ, List};
ghost use Rattle.kd_trace.specs.declared.verdict.Verdict as verdict;
ghost use Rattle.kd_trace.specs.Trace.{BreaksAt, IsTrace, Pair};
ghost use Rattle.kd_trace.specs.Right.{IsVerdict};

/// A trace is one list of events and answers: what is written of them is read as them.
#[tactic(auto, using(crate::proofs::OneReading::one_reading))]
pub fn a_trace_has_one_reading()
    ensures { (bytes : List ℕ) (ps qs : List Pair) → IsTrace bytes ps → IsTrace bytes qs → ps ≡ qs }
{}

/// Bytes that break are no trace.
pub fn what_breaks_is_no_trace()
    ensures { (bytes : List ℕ) (at : ℕ) (ps : List Pair) → BreaksAt bytes at → IsTrace bytes ps
        → ⊥ }
{}

/// And they break at one place.
pub fn bytes_break_at_one_place()
    ensures { (bytes : List ℕ) (at place : ℕ) → BreaksAt bytes at → BreaksAt bytes place
        → at ≡ place }
{}

/// A trace is right, or has one first pair that isn't.
#[tactic(auto, using(crate::proofs::OneReading::one_verdict))]
pub fn a_trace_has_one_verdict()
    ensures { (ps : List Pair) (v u : verdict.Verdict) → IsVerdict ps v → IsVerdict ps u → v ≡ u }
{}
