//! A link's numbers, and the refusals of a network.
ghost use Rattle.std.specs.Prelude.{◌≡◌, Some};
ghost use Rattle.networks.specs.Meaning.{link_sound, usable, lit_link};
ghost use Rattle.networks.specs.Refusing.{refusal};
ghost use Rattle.refusals.specs.Numbers.{rule};

use crate::limits::{MOST_CHANNELS, MOST_METRES};
use refusals::Refusal;
use std::error::Error;
use std::fmt;

/// A link runs one way, from its start to its end. Of its metres some run on poles; of its channels some are taken; it is lit or dark.
#[derive(Clone, Copy, PartialEq, Eq, Debug)]
pub struct Link {
    pub start: u16,
    pub end: u16,
    pub metres: u32,
    pub poles: u32,
    pub channels: u16,
    pub taken: u16,
    pub lit: bool,
}

impl Link {
    /// A lit link with no channel taken.
    pub fn lit(start: u16, end: u16, metres: u32, poles: u32, channels: u16) -> Link
        ensures { result ≡ lit_link start end metres poles channels }
    {
        Link {
            start,
            end,
            metres,
            poles,
            channels,
            taken: 0,
            lit: true,
        }
    }

    /// Whether every number is within its limits, in a network of so many sites.
    #[tactic(auto, unfolding(crate::specs::Meaning::link_sound))]
    pub fn is_sound(&self, sites: u16) -> bool
        ensures { result ≡ link_sound sites self.now }
    {
        // `&`, and not `&&`: every link of a sheet is asked this twice, and no branch is faster.
        let ends = (self.start < sites) & (self.end < sites) & (self.start != self.end);
        let lengths = (1..=MOST_METRES).contains(&self.metres) & (self.poles <= self.metres);
        let channels = (1..=MOST_CHANNELS).contains(&self.channels) & (self.taken <= self.channels);
        ends & lengths & channels
    }

    /// Whether the link is lit and has a channel free.
    pub fn is_usable(&self) -> bool
        ensures { result ≡ usable self.now }
    {
        self.lit && self.taken < self.channels
    }
}

/// Why a network does not do what it is asked.
#[derive(Clone, Copy, PartialEq, Eq, Debug)]
pub enum NetworkRefusal {
    LinkTooHigh,
    NotUsable,
    NoneTaken,
}

impl From<NetworkRefusal> for Refusal {
    ghost from_gives = { λ why r. r ≡ refusal why };

    fn from(why: NetworkRefusal) -> Refusal {
        match why {
            NetworkRefusal::LinkTooHigh => Refusal::LinkTooHigh,
            NetworkRefusal::NotUsable => Refusal::NotUsable,
            NetworkRefusal::NoneTaken => Refusal::NoneTaken,
        }
    }
}

// An `impl` for each enum: one for whatever converts to a refusal would be one for types of other crates too.
impl fmt::Display for NetworkRefusal {
    ghost output = { λ why. Some (rule (refusal why)) };

    fn fmt<W: fmt::Write>(&self, f: &mut fmt::Formatter<W>) -> fmt::Result {
        Refusal::from(*self).fmt(f)
    }
}

impl Error for NetworkRefusal {}
