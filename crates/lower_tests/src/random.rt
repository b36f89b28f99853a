ghost use Rattle.std.specs.Prelude.{◌≤◌};

/// A linear congruential generator.
#[derive(Clone, Copy, Debug)]
pub struct Random {
    state: u64,
}

impl Random {
    pub fn new(seed: u32) -> Random {
        Random {
            state: u64::from(seed),
        }
    }

    /// A number below this one, or 0.
    pub fn below(&mut self, most: u32) -> u32
        ensures { result ≤ most }
    {
        self.state = self
            .state
            .wrapping_mul(6_364_136_223_846_793_005)
            .wrapping_add(1_442_695_040_888_963_407);
        if most == 0 {
            return 0;
        }
        ((self.state >> 33) % u64::from(most)) as u32
    }

    /// True as often as this many times in ten.
    pub fn often(&mut self, times: u32) -> bool {
        self.below(10) < times
    }
}
