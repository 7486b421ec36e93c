//! Quotes: the least pair of routes from a root to a target that share no link, over any network, any cost kind and any marks.
#![tactic(auto)]

mod quotation;
mod quoting;
mod telling;

pub use quotation::Quote;
pub use quoting::quote;
