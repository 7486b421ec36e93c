//! The planner's priority queue: sites with their costs, the least first, of equal costs the lower site.
#![tactic(auto)]

mod changing;
mod entries;
mod queues;
mod sifting;

pub use entries::Entry;
pub use queues::{NoRoom, Queue};
