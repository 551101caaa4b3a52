//! How often it is tried to learn more of what is found: seldom where that gives nothing.

/// So many tries in vain make them seldom.
const MOST_LOST: u32 = 256;

/// So many of them one that gave more makes up for.
const GAIN: u32 = 8;

/// Where tries are seldom, one of so many chances is taken.
const CHANCES: u32 = 16;

/// The tries in vain, less what others made up for, and the chances since they became seldom.
#[derive(Clone, Copy)]
pub struct Tries {
    lost: u32,
    chances: u32,
}

impl Tries {
    /// None so far.
    pub fn none() -> Tries {
        Tries {
            lost: 0,
            chances: 0,
        }
    }

    /// Whether this chance is taken.
    pub fn is_due(&mut self) -> bool {
        if self.lost < MOST_LOST {
            return true;
        }
        self.chances = self.chances.wrapping_add(1);
        self.chances % CHANCES == 0
    }

    /// Notes whether a try gave more.
    pub fn note(&mut self, gave_more: bool) {
        self.lost = if gave_more {
            self.lost.saturating_sub(GAIN)
        } else {
            self.lost.saturating_add(1).min(MOST_LOST)
        };
    }
}
