//! The limits of a network's numbers, for whatever tests one.

/// The fewest sites of a network.
pub const FEWEST_SITES: u16 = 2;
/// The most sites of a network.
pub const MOST_SITES: u16 = 256;
/// The most links of a network.
pub const MOST_LINKS: u16 = 2048;
/// The most metres of a link; it has at least one.
pub const MOST_METRES: u32 = 1_000_000;
/// The most channels of a link; it has at least one.
pub const MOST_CHANNELS: u16 = 255;
