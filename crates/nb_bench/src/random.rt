//! Numbers that look random: cheap, and the same in each run.

/// Scatters a number over 64 bits, by the last steps of splitmix64. No two numbers come to the same
/// one.
pub(crate) fn scattered(number: u64) -> u64 {
    let number = (number ^ (number >> 30)).wrapping_mul(0xbf58_476d_1ce4_e5b9);
    let number = (number ^ (number >> 27)).wrapping_mul(0x94d0_49bb_1331_11eb);
    number ^ (number >> 31)
}

/// A row of numbers that look random: splitmix64.
#[derive(Clone, Copy)]
pub(crate) struct Random {
    state: u64,
}

impl Random {
    /// The row of a seed.
    pub(crate) fn new(seed: u64) -> Random {
        Random {
            state: scattered(seed.wrapping_add(1)),
        }
    }

    /// The next number of the row.
    pub(crate) fn draw(&mut self) -> u64 {
        self.state = self.state.wrapping_add(0x9e37_79b9_7f4a_7c15);
        scattered(self.state)
    }
}
