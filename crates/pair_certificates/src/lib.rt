//! The certificate of a circuit's pair of routes, with its sums as a network shows them.
#![tactic(auto)]

pub mod certifying;
pub mod theorems;
