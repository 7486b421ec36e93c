//! What the two runs of a planning consider.
#![tactic(auto)]

mod first;
mod pieces;
mod second;
mod usable;

pub use first::FirstStage;
pub use second::{FirstRun, SecondStage};
