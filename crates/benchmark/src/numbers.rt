//! Numbers that look random and are the same in every run.

/// A generator of numbers, the one that is known as SplitMix64.
#[derive(Clone, Copy)]
pub struct Numbers {
    state: u64,
}

impl Numbers {
    /// The generator with this seed.
    pub fn seeded(seed: u64) -> Numbers {
        Numbers { state: seed }
    }

    /// The next number.
    pub fn draw(&mut self) -> u64 {
        let state = self.state.wrapping_add(0x9e37_79b9_7f4a_7c15);
        self.state = state;
        let once = (state ^ (state >> 30)).wrapping_mul(0xbf58_476d_1ce4_e5b9);
        let twice = (once ^ (once >> 27)).wrapping_mul(0x94d0_49bb_1331_11eb);
        twice ^ (twice >> 31)
    }
}
