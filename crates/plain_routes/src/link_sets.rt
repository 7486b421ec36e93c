//! Sets of links.

/// The most links that a network has here.
pub const MOST_LINKS: usize = 32;

/// A set of links: a bit for each number.
#[derive(Clone, Copy, PartialEq, Eq)]
pub struct LinkSet {
    bits: u32,
}

impl LinkSet {
    /// The set of no link.
    pub const NONE: LinkSet = LinkSet { bits: 0 };

    /// The set of all links.
    pub const ALL: LinkSet = LinkSet { bits: u32::MAX };

    // The set of one link.
    fn only(link: u16) -> LinkSet {
        LinkSet {
            bits: 1u32.checked_shl(u32::from(link)).unwrap_or(0),
        }
    }

    /// The set with a link more.
    pub fn with(self, link: u16) -> LinkSet {
        LinkSet {
            bits: self.bits | LinkSet::only(link).bits,
        }
    }

    /// The links of both sets.
    pub fn common(self, other: LinkSet) -> LinkSet {
        LinkSet {
            bits: self.bits & other.bits,
        }
    }

    /// Whether a link is in the set.
    pub fn has(self, link: u16) -> bool {
        !self.common(LinkSet::only(link)).is_empty()
    }

    /// Whether no link is in the set.
    pub fn is_empty(self) -> bool {
        self.bits == 0
    }
}
