//! The draws of a seed.
ghost use Rattle.std.specs.Prelude.{◌≡◌, ◌+◌, ◌-◌, ◌<◌, ◌^◌};
ghost use Rattle.bench_spec.specs.Draws.{draw, state_after};

const MULTIPLIER: u64 = 6_364_136_223_846_793_005;

const INCREMENT: u64 = 1_442_695_040_888_963_407;

/// A draw is what stands above these bits of the state behind it.
const DROPPED_BITS: u32 = 33;

/// The draws of a seed, some of which were made.
#[derive(Drop)]
pub(crate) struct Draws {
    pub(crate) seed: u64,
    /// How many were made.
    pub(crate) made: u64,
    state: u64,
    ghost drawn: { state ≡ state_after seed made },
}

impl Draws {
    /// All draws of the seed.
    pub(crate) fn of(seed: u64) -> Draws
        ensures seed { result.seed ≡ seed }
        ensures made { result.made ≡ 0 }
    {
        Draws {
            seed,
            made: 0,
            state: seed,
        }
    }

    /// The next draw.
    pub(crate) fn draw(&mut self) -> u64
        requires { self.old.made < 2 ^ 64 - 1 }
        ensures seed { self.new.seed ≡ self.old.seed }
        ensures made { self.new.made ≡ self.old.made + 1 }
        ensures drawn { result ≡ draw self.old.seed (self.old.made + 1) }
    {
        self.state = self.state.wrapping_mul(MULTIPLIER).wrapping_add(INCREMENT);
        self.made += 1;
        self.state >> DROPPED_BITS
    }
}
