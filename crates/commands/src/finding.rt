//! What a planning finds for a target, in a few words.
use crate::total::Total;
use std::fmt;
use surveys::Outcome;

/// The total of a pair of routes that share no link; the link that every route uses; or that no route leads there.
#[derive(Clone, Copy, PartialEq, Eq, Debug)]
pub enum Finding {
    Pair(Total),
    Cut(u16),
    None,
}

impl Finding {
    /// What an outcome of a survey says of a site; nothing of the root.
    pub fn of<C: Into<Total> + Drop>(outcome: Outcome<C>) -> Option<Finding> {
        match outcome {
            Outcome::Root => None,
            Outcome::Total(total) => Some(Finding::Pair(total.into())),
            Outcome::NoRoute => Some(Finding::None),
            Outcome::OneLink { link } => Some(Finding::Cut(link)),
        }
    }
}

impl fmt::Display for Finding {
    fn fmt<W: fmt::Write>(&self, f: &mut fmt::Formatter<W>) -> fmt::Result {
        match *self {
            Finding::Pair(total) => write!(f, "pair {total}"),
            Finding::Cut(link) => write!(f, "cut {link}"),
            Finding::None => f.write_str("none"),
        }
    }
}
