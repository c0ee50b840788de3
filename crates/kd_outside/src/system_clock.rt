//! The system's clock. It tells nothing of the moments to come, and counts each error.

ghost use Rattle.std.specs.Prelude.{◌≡◌, false};
ghost use Rattle.std.specs.declared.option.Option.TheVariants.{None};
ghost use Rattle.kd_outside.specs.Told.{ClockState};

use crate::service::Clock;
use crate::traits::Failed;
use kd_types::Moment;
use std::marker::Model;
use std::time;

/// Milliseconds since the start of 1970, or the greatest that was read so far where the system's
/// clock went back.
#[derive(Drop)]
pub struct SysClock<H> {
    handle: H,
    latest: u64,
    faults: u64,
}

impl<H> Model for SysClock<H> {
    ghost Value = { ClockState };

    ghost view = { λ c. record { coming = None; latest = c.latest; faults = c.faults } };
}

impl<H> SysClock<H> {
    /// A clock that told nothing yet.
    pub fn make(handle: H) -> SysClock<H>
        ensures { result ≡ record { coming = None; latest = 0; faults = 0 } }
    {
        SysClock {
            handle,
            latest: 0,
            faults: 0,
        }
    }
}

impl<H: time::Clock> Clock for SysClock<H> {
    ghost told = { λ c. c };

    ghost is_spare = { λ _. false };

    fn now(&mut self) -> Result<Moment, Failed> {
        let Ok(time) = self.handle.since_1970() else {
            self.faults = self.faults.saturating_add(1);
            return Err(Failed);
        };
        let read = u64::try_from(time.as_millis()).unwrap_or(u64::MAX);
        self.latest = self.latest.max(read);
        Ok(Moment(self.latest))
    }
}
