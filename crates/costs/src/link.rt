//! The lengths of a link: all that its cost is made from.

/// A link's length in metres, and how many of these are carried on poles.
#[derive(Clone, Copy, PartialEq, Eq, Debug)]
pub struct Lengths {
    pub metres: u32,
    pub poles: u32,
}
