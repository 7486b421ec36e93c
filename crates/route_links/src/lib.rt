//! The links of a route over any network: a channel taken or given back on each, and their lengths added up.
#![tactic(auto)]

mod channels;
mod lengths;

pub use channels::{give_route, take_route};
pub use lengths::add_up;
