//! The two runs of a planning over lent tables.
#![tactic(auto)]

mod both;
mod running;

pub use both::both_runs;
pub use running::first_run_without;
