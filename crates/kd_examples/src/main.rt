//! The program `kd_examples`: streams to read, each run and told again.
//!
//! ```text
//! NAME.frames.txt     frames of callers as lines, with a word on what they show
//! NAME.frames         the frames
//! NAME.replies        the replies that they get
//! NAME.replies.txt    the replies as lines
//! ```
//!
//! It runs over the examples of the folder that it is started in: of each the lines make the
//! frames, the frames get the replies, and the replies are told in the lines. It names those where
//! that isn't so, and tells how many agree.
#![tactic(auto)]

mod example;
mod outcome;
mod runs;
mod stored;

use outcome::{Outcome, outcome_of};
use std::io;
use std::process::ExitCode;
use stored::examples_in;

fn main(rt: HostRuntime) -> io::Result<ExitCode> {
    let examples = examples_in(&rt, ".")?;
    let mut outcomes = Vec::new(rt.alloc());
    for example in &examples {
        let outcome = outcome_of(rt.alloc(), example)?;
        if outcome != Outcome::Agrees {
            println!(rt; "{}: {outcome}", example.name)?;
        }
        outcomes.push(outcome)?;
    }
    let agreed = outcomes
        .iter()
        .filter(|outcome| **outcome == Outcome::Agrees)
        .count();
    println!(rt; "{agreed} agree")?;
    if agreed == examples.len() {
        Ok(ExitCode::SUCCESS)
    } else {
        Ok(ExitCode::FAILURE)
    }
}
