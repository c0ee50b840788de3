//! Numbers that look random and are the same at each run.

/// A linear congruential generator of 64 bits with the constants of Knuth's MMIX, of whose states
/// the upper 31 bits are drawn.
#[derive(Clone, Copy, Debug)]
pub struct Draws {
    state: u64,
}

impl Draws {
    /// A generator that begins with a state.
    pub fn from_state(state: u64) -> Draws {
        Draws { state }
    }

    /// The next number, below 2^31.
    pub fn draw(&mut self) -> u64 {
        self.state = self
            .state
            .wrapping_mul(6_364_136_223_846_793_005)
            .wrapping_add(1_442_695_040_888_963_407);
        self.state >> 33
    }
}
