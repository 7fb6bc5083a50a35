//! The numbers that are drawn from a seed.
ghost use Rattle.std.specs.Prelude.{◌≡◌, ◌/◌, ◌^◌};
ghost use Rattle.made_page.specs.Draws.{state_behind};

/// Knuth's multiplier, of MMIX.
const MULTIPLIER: u64 = 6_364_136_223_846_793_005;

/// What is added, of MMIX too.
const INCREMENT: u64 = 1_442_695_040_888_963_407;

/// A linear congruential generator of 64 bits, with Knuth's numbers. Its state begins as the seed.
#[derive(Drop)]
pub struct Draws {
    /// The number that was made last, or the seed.
    pub state: u64,
}

impl Draws {
    /// The next number: the upper 31 bits of the next state.
    pub fn draw(&mut self) -> u64
        ensures state { self.new.state ≡ state_behind self.old.state }
        ensures value { result ≡ state_behind self.old.state / 2 ^ 33 }
    {
        self.state = self.state.wrapping_mul(MULTIPLIER).wrapping_add(INCREMENT);
        self.state >> 33
    }
}
