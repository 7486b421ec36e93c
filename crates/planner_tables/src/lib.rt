//! The working tables of a planning, whether they are long enough, and why a planning is refused.
#![tactic(auto)]

mod refusing;
mod rooms;
mod tables;

pub use refusing::PlannerRefusal;
pub use tables::Tables;
