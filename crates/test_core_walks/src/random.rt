// Numbers from a seed.
ghost use Rattle.std.specs.Prelude.{◌<◌};

/// Numbers from a seed, by a linear congruence.
#[derive(Drop)]
pub struct Numbers {
    state: u64,
}

impl Numbers {
    /// The same from the same seed.
    pub fn new(seed: u64) -> Self {
        Numbers { state: seed }
    }

    /// The next number.
    pub fn below(&mut self, bound: u32) -> u32
        requires { 0 < bound }
        ensures { result < bound }
    {
        self.state = self
            .state
            .wrapping_mul(6_364_136_223_846_793_005)
            .wrapping_add(1_442_695_040_888_963_407);
        (self.state >> 32) as u32 % bound
    }

    /// Whether a chance of one in so many comes true.
    pub fn is_one_in(&mut self, many: u32) -> bool
        requires { 0 < many }
    {
        self.below(many) == 0
    }
}
