//! Numbers that look random, the same at each run.

/// A row of numbers.
#[derive(Drop)]
pub struct Dice {
    state: u64,
}

impl Dice {
    /// The row that a number begins.
    pub fn new(seed: u64) -> Dice {
        Dice { state: seed }
    }

    /// The next number, below so many; 0 where that is 0.
    pub fn below(&mut self, many: u32) -> u32 {
        let next = self.state.wrapping_mul(6_364_136_223_846_793_005);
        self.state = next.wrapping_add(1_442_695_040_888_963_407);
        let high = u32::try_from(self.state >> 33).unwrap_or(0);
        high.checked_rem(many).unwrap_or(0)
    }
}
