//! Random numbers from a seed.

use rand_core::Rng;
use rand_pcg::Pcg32;

/// A generator of random numbers.
#[derive(Drop)]
pub(crate) struct Dice {
    words: Pcg32,
}

impl Dice {
    /// The numbers of that number with that seed.
    pub fn new(seed: u64, number: u64) -> Dice {
        Dice {
            words: Pcg32::new(seed, number),
        }
    }

    /// A number below that one; 0 where that is 0.
    pub fn below(&mut self, many: u32) -> u32 {
        self.words.next_u32() % many.max(1)
    }

    /// The number of one of so many things.
    pub fn index(&mut self, many: usize) -> usize {
        match u32::try_from(many) {
            Ok(many) => self.below(many) as usize,
            Err(_) => 0,
        }
    }

    /// A small number below that one.
    pub fn small(&mut self, many: u8) -> u8 {
        match u8::try_from(self.below(u32::from(many))) {
            Ok(number) => number,
            Err(_) => 0,
        }
    }

    /// Whether it is the one of so many cases.
    pub fn is_one_of(&mut self, many: u32) -> bool {
        self.below(many) == 0
    }
}
