//! Numbers by chance, the same in each run.

use bit_ops::low;

/// A linear congruential generator.
#[derive(Clone, Copy)]
pub struct Chance {
    state: u64,
}

impl Chance {
    pub fn new(seed: u64) -> Chance {
        Chance { state: seed }
    }

    // The upper 53 bits of the next number.
    fn next(&mut self) -> u64 {
        self.state = self
            .state
            .wrapping_mul(6364136223846793005)
            .wrapping_add(1442695040888963407);
        self.state >> 11
    }

    /// A number below another; 0 below 0.
    pub fn below(&mut self, bound: u32) -> u32 {
        let number = self.next() >> 8;
        if bound == 0 {
            0
        } else {
            (number % u64::from(bound)) as u32
        }
    }

    /// Whether it is one of so many.
    pub fn one_of(&mut self, count: u32) -> bool {
        self.below(count) == 0
    }

    /// A width: of all sizes, and each size as often as another.
    pub fn width(&mut self) -> u32 {
        match self.below(6) {
            0 | 1 => 1,
            2 => self.below(8).saturating_add(1),
            3 => self.below(32).saturating_add(1),
            4 => self.below(32).saturating_add(33),
            _ => self.below(64).saturating_add(65),
        }
    }

    /// Bits of this width, at most 128, of which at times only few are set, or few aren't.
    pub fn bits(&mut self, width: u32) -> u128 {
        let high = u128::from(self.next()) << 75;
        let middle = u128::from(self.next()) << 40;
        let any = high ^ middle ^ u128::from(self.next());
        let value = match self.below(6) {
            0 => any & 3,
            1 => !(any & 3),
            _ => any,
        };
        low(value, width.min(128))
    }
}
