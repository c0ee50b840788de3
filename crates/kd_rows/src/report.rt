//! What running all conversations again comes to.

ghost use Rattle.std.specs.Prelude.{◌≡◌, length, filter, IfOk};
ghost use Rattle.kd_rows.specs.Trials.{AreOutcomes, agrees};

use crate::outcome::{Outcome, outcome_of};
use crate::trial::Trial;
use std::alloc::{AllocError, Global};

/// What each trial came to, in their order.
#[derive(Debug, Drop)]
pub struct Report {
    outcomes: Vec<Outcome>,
}

impl Report {
    pub fn outcomes(&self) -> &[Outcome]
        ensures { result.now ≡ self.now.outcomes.items }
    {
        &self.outcomes
    }

    /// How many agree.
    pub fn agreed(&self) -> usize
        ensures { result ≡ length (filter agrees self.now.outcomes.items) }
    {
        self.outcomes
            .iter()
            .filter(|outcome| **outcome == Outcome::Agrees)
            .count()
    }
}

/// Runs all trials again, each on a bus of its own.
#[tactic(auto, using(crate::proofs::Outcomes::next_outcome))]
pub fn report_of(alloc: Global, trials: &[Trial]) -> Result<Report, AllocError>
    ensures { IfOk result (λ report. AreOutcomes trials.now report.outcomes.items) }
{
    let mut outcomes = Vec::with_capacity(alloc, trials.len())?;
    'trials: for trial in trials {
        outcomes.push(outcome_of(alloc, trial)?)?;
    }
    Ok(Report { outcomes })
}
