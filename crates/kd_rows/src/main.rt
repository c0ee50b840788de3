//! The program `kd_rows`: recorded conversations, each run again and compared.
//!
//! ```text
//! NAME.in      frames of callers on one bus
//! NAME.out     the replies that they get
//! NAME.cut     where the frames break off; there is none where they are whole
//! ```
//!
//! It runs over the conversations of the folder that it is started in, names those whose replies or
//! whose end are others than recorded, and tells how many agree. A new conversation is two files,
//! and costs no proof.
#![tactic(auto)]

mod outcome;
mod report;
mod stored;
mod trial;

use outcome::Outcome;
use report::report_of;
use std::io;
use std::process::ExitCode;
use stored::trials_in;

fn main(rt: HostRuntime) -> io::Result<ExitCode> {
    let trials = trials_in(&rt, ".")?;
    let report = report_of(rt.alloc(), &trials)?;
    for (trial, outcome) in trials.iter().zip(report.outcomes()) {
        match outcome {
            Outcome::Agrees => {}
            Outcome::Differs => println!(rt; "{} differs", trial.name)?,
            Outcome::Unfinished => println!(rt; "{} was not run to its end", trial.name)?,
        }
    }
    println!(rt; "{} agree", report.agreed())?;
    if report.agreed() == trials.len() {
        Ok(ExitCode::SUCCESS)
    } else {
        Ok(ExitCode::FAILURE)
    }
}
