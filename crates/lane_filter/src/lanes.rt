//! Numbers taken by lanes, 32 bytes at a step.
ghost use Rattle.std.specs.Prelude.{◌≡◌, ◌<◌, ◌≤◌, ◌*◌, ◌^◌, length};
ghost use Rattle.std.specs.Int.{Width, byte_len};
ghost use Rattle.lane_filter.specs.Lanes.{LanesValue, padded_step, numbers_of, steps_of};
ghost use Rattle.lane_filter.specs.Lanes.{with_bytes, with_steps};

/// How many numbers were chosen, and how far they lie above the low end, added up.
#[derive(Clone, Copy)]
pub struct Chosen {
    pub count: u64,
    pub offsets: u128,
}

/// What was chosen so far of the numbers of a width: those that lie at most a span above the low
/// end, counted round the numbers of the width.
pub trait Lanes: Drop {
    ghost width: { Width };

    ghost taken: { Self → LanesValue };

    /// The same with the numbers of 32 bytes taken too.
    fn with(self, bytes: &[u8; 32]) -> Self
        requires { (taken self).count ≤ 2 ^ 15 }
        ensures { taken result ≡ with_bytes width bytes.now (taken self) };

    /// What was chosen.
    fn chosen(&self) -> Chosen
        requires { (taken self.now).count < 2 ^ 16 }
        ensures count { result.count ≡ (taken self.now).count }
        ensures offsets { result.offsets ≡ (taken self.now).offsets };
}

/// What lanes choose of all numbers in bytes, and of the zeros behind them to a whole step.
pub fn choose<L: Lanes>(lanes: L, values: &[u8]) -> Chosen
    requires few { length values.now ≤ 2 ^ 15 * byte_len L.width }
    requires fresh { (L.taken lanes).count ≡ 0 }
    requires small { (L.taken lanes).offsets ≡ 0 }
    ensures count { result.count
        ≡ (with_steps L.width (steps_of values.now) (L.taken lanes)).count }
    ensures offsets { result.offsets
        ≡ (with_steps L.width (steps_of values.now) (L.taken lanes)).offsets }
    ensures few { result.count < 2 ^ 16 }
    ensures small { result.offsets ≤ numbers_of L.width * 2 ^ 16 }
{
    let (steps, rest) = values.as_chunks::<32>();
    let mut lanes = lanes;
    for bytes in steps {
        lanes = lanes.with(bytes);
    }
    lanes.with(&padded(rest)).chosen()
}

/// Bytes with zeros behind them to a whole step.
fn padded(bytes: &[u8]) -> [u8; 32]
    requires { length bytes.now < 32 }
    ensures { result ≡ padded_step bytes.now }
{
    let mut step = [0; 32];
    step[..bytes.len()].copy_from_slice(bytes);
    step
}
