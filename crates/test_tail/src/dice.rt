//! Numbers that look random, and are the same for the same list.
ghost use Rattle.std.specs.Prelude.{◌≤◌};

/// A linear congruential generator of 64 bits.
#[derive(Clone, Copy)]
pub struct Dice {
    last: u64,
}

impl Dice {
    /// The numbers of a list.
    pub fn of(list: u64) -> Dice {
        let mut dice = Dice { last: list };
        dice.throw();
        dice
    }

    /// The next number, of 32 bits: the lower ones of the generator are little random.
    fn throw(&mut self) -> u64 {
        self.last = self
            .last
            .wrapping_mul(6_364_136_223_846_793_005)
            .wrapping_add(1_442_695_040_888_963_407);
        self.last >> 32
    }

    /// A number up to `most`.
    pub fn up_to(&mut self, most: usize) -> usize
        ensures { result ≤ most }
    {
        match most.checked_add(1) {
            Some(sides) => (self.throw() % sides as u64) as usize,
            None => 0,
        }
    }

    /// Any byte.
    pub fn byte(&mut self) -> u8 {
        (self.throw() % 256) as u8
    }
}
