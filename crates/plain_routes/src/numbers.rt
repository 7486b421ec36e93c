//! Numbers that look random and are the same in every run.

/// A generator of numbers, of the kind known as xorshift.
#[derive(Clone, Copy)]
pub struct Numbers {
    state: u64,
}

impl Numbers {
    /// The generator with this seed. With 0 it would draw nothing but 0.
    pub fn seeded(seed: u64) -> Numbers {
        Numbers { state: seed.max(1) }
    }

    // The next number: its upper bits are the better ones.
    fn draw(&mut self) -> u64 {
        let once = self.state ^ (self.state >> 12);
        let twice = once ^ once.wrapping_shl(25);
        let thrice = twice ^ (twice >> 27);
        self.state = thrice;
        thrice.wrapping_mul(0x2545_f491_4f6c_dd1d)
    }

    /// A number below a bound; 0 below 0.
    pub fn below(&mut self, bound: u16) -> u16 {
        let drawn = (self.draw() >> 48) as u16;
        drawn.checked_rem(bound).unwrap_or(0)
    }

    /// Whether it happens, once in so many times.
    pub fn is_one_in(&mut self, times: u16) -> bool {
        self.below(times) == 0
    }

    /// One of some values; none of no value.
    pub fn one_of<T: Copy>(&mut self, values: &[T]) -> Option<T> {
        let bound = u16::try_from(values.len()).unwrap_or(u16::MAX);
        let place = usize::from(self.below(bound));
        values.get(place).copied()
    }

    /// The ends of a link: two different sites, or in one of four links those of the link before,
    /// beside which it then runs.
    pub fn ends(&mut self, sites: u16, before: (u16, u16)) -> (u16, u16) {
        if before.0 != before.1 && self.is_one_in(4) {
            return before;
        }
        let start = self.below(sites);
        let other = self.below(sites.saturating_sub(1));
        let end = if other < start {
            other
        } else {
            other.saturating_add(1)
        };
        (start, end)
    }
}
