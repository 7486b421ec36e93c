//! The pile that a board keeps: closings over surcharges over any network, told of the network under both layers.
#![tactic(auto)]

pub mod changing;
pub mod pairing;
pub mod pile;
