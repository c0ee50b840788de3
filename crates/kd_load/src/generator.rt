//! The draws of one thread.
ghost use Rattle.std.specs.Prelude.{◌≡◌, ◌+◌, ◌^◌, ◌≤◌, ◌<◌};
ghost use Rattle.kd_load.specs.Load.{first_state, message_at, next_state, number_drawn, state_behind, target};

use crate::message::{Message, Target};

/// The state of a thread's draws, which follows from the seed.
#[derive(Clone, Copy, Debug, PartialEq, Eq)]
pub struct Generator {
    pub state: u64,
}

/// Where a message goes by the two numbers drawn for it, among so many threads.
fn target(threads: u32, a: u64, b: u64) -> Target
    requires { (1 ≤ threads) × (threads ≤ 16) }
    ensures { result ≡ target threads a b }
{
    if a % 4 == 0 {
        Target::All {
            digit: (b % 8) as u8,
        }
    } else {
        Target::One {
            id: 1 + b % u64::from(threads),
        }
    }
}

impl Generator {
    /// The state of the thread whose connection has this id, before its first draw.
    pub fn of(seed: u64, id: u64) -> Generator
        ensures { result.state ≡ first_state seed id }
    {
        Generator {
            state: seed.wrapping_add(id),
        }
    }

    /// Draws a number of 31 bits.
    fn draw(&mut self) -> u64
        ensures state { self.new.state ≡ next_state self.old.state }
        ensures number { result ≡ number_drawn self.new.state }
    {
        self.state = self
            .state
            .wrapping_mul(6_364_136_223_846_793_005)
            .wrapping_add(1_442_695_040_888_963_407);
        self.state >> 33
    }

    /// The next message of the sender, by two draws.
    pub fn message(&mut self, threads: u32, sender: u64, number: u64) -> Message
        requires { (1 ≤ threads) × (threads ≤ 16) }
        ensures state { self.new.state ≡ state_behind self.old.state }
        ensures message { result ≡ message_at threads sender self.old.state number }
    {
        let a = self.draw();
        let b = self.draw();
        Message {
            sender,
            number,
            target: target(threads, a, b),
        }
    }
}
