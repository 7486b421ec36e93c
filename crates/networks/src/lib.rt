//! Networks: what a network is, the trait that every network meets, and the network that owns its links.
#![tactic(auto)]

pub mod building;
pub mod limits;
pub mod model;
pub mod network;
pub mod owned;
pub mod owning;
