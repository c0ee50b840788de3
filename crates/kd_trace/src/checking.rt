//! Checking a whole trace.

ghost use Rattle.std.specs.Prelude.{◌≡◌, ◌≤◌, ◌<◌, ◌+◌, ◌++◌, ◌∷◌, ◌^◌, [], Err, IfOk, List, Ok, OnOk, length, ℕ};
ghost use Rattle.kd_replay.specs.Turns.{replay_world};
ghost use Rattle.kd_trace.specs.Trace.{BreaksAt, IsTrace, Pair, events, trace_bytes};
ghost use Rattle.kd_trace.specs.Right.{HasVerdict, IsLegalRun};
ghost use Rattle.kd_trace.specs.Fronts.{pair_of};
ghost use Rattle.kd_trace.specs.Judging.{AreJudged};

use crate::judging::Run;
use crate::pairs::{PairRead, read_pair};
use crate::verdict::{TraceError, Verdict};
use kd_replay::open;
use std::alloc::{AllocError, Global};

/// A check so far.
#[derive(Drop)]
struct Check {
    run: Run,
    /// How many pairs are right, as long as all are.
    count: u64,
    verdict: Verdict,
}

impl Check {
    /// Nothing was checked yet.
    fn open(alloc: Global) -> Result<Check, AllocError>
        ensures judged { IfOk result
            (λ c. AreJudged [] c.run.world.world c.run.number c.count c.verdict) }
        ensures steps { IfOk result (λ c. c.run.world.steps ≡ 0) }
        ensures count { IfOk result (λ c. c.count ≡ 0) }
    {
        Ok(Check {
            run: Run {
                world: open(alloc)?,
                number: 0,
            },
            count: 0,
            verdict: Verdict::Yes,
        })
    }

    /// One pair more, whose event begins at this byte.
    fn judge(&mut self, alloc: Global, pair: PairRead, at: u64) -> Result<(), AllocError>
        requires judged { (ps : List Pair)
            × AreJudged ps self.old.run.world.world self.old.run.number self.old.count
            self.old.verdict }
        requires steps { self.old.run.world.steps < 2 ^ 54 }
        requires count { self.old.count < 2 ^ 54 }
        ensures judged { (ps : List Pair)
            → AreJudged ps self.old.run.world.world self.old.run.number self.old.count
            self.old.verdict
            → at ≡ length (trace_bytes ps)
            → OnOk result
            (AreJudged (ps ++ pair_of pair ∷ []) self.new.run.world.world self.new.run.number
            self.new.count self.new.verdict) }
        ensures steps { self.new.run.world.steps ≤ self.old.run.world.steps + 1 }
        ensures count { self.new.count ≤ self.old.count + 1 }
    {
        let Verdict::Yes = self.verdict else {
            return Ok(());
        };
        if self.run.is_right(alloc, pair)? {
            self.count += 1;
        } else {
            self.verdict = Verdict::No {
                index: self.count,
                at,
            };
        }
        Ok(())
    }
}

/// Judges the run that was written down as a trace: from the opening of a bus each event has to be
/// legal, and to be answered as it is there. The bytes are gone over once, and nothing of them is
/// kept but one pair at a time.
pub fn check_trace(alloc: Global, bytes: &[u8]) -> Result<Verdict, TraceError>
    requires { length bytes.now ≤ 2 ^ 54 }
    // The bytes are a trace. Yes: it is right to its end; No: this is its first pair that isn't.
    ensures judged { IfOk result (HasVerdict bytes.now) }
    // Where it is right its run is legal, with all that holds of every legal run.
    ensures legal { result ≡ Ok Verdict.Yes
        → (ps : List Pair) × IsTrace bytes.now ps × IsLegalRun (events ps) }
    // They aren't a trace, and this is the first place that breaks it.
    ensures malformed { (at : ℕ) → result ≡ Err (TraceError.Malformed at) → BreaksAt bytes.now at }
{
    let mut check = Check::open(alloc)?;
    let mut rest = bytes;
    let mut at = 0;
    'pairs: while !rest.is_empty() {
        let pair = read_pair(alloc, rest, at)?;
        let size = pair.size;
        check.judge(alloc, pair, at as u64)?;
        rest = rest.split_at(size).1;
        at += size;
    }
    Ok(check.verdict)
}
