//! Layers: networks that lie over any network and show its links changed. They pile in any order, to any depth.
#![tactic(auto)]

pub mod change;
pub mod closed;
pub mod closing;
pub mod layer;
pub mod layering;
pub mod refusing;
pub mod surcharged;
pub mod surcharging;
