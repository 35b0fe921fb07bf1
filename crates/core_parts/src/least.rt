//! The least of offered numbers.
ghost use Rattle.std.specs.Prelude.{◌≡◌};
ghost use Rattle.core_parts.specs.Least.{offered};

/// The least number from one on, of those that were offered.
#[derive(Clone, Copy, Debug)]
pub struct Least {
    pub from: u32,
    pub best: Option<u32>,
}

impl Least {
    /// Offers a number.
    pub(crate) fn offer(&mut self, number: u32)
        ensures { self.new ≡ offered number self.old }
    {
        let is_less = match self.best {
            None => true,
            Some(best) => number < best,
        };
        if self.from <= number && is_less {
            self.best = Some(number);
        }
    }
}
