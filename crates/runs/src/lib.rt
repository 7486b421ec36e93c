//! A run over a network: sites are settled one by one, the least label first. One loop serves both runs of a planning.
#![tactic(auto)]

mod running;
mod settling;
mod stage;
mod tables;

pub use running::run;
pub use stage::Stage;
pub use tables::{NONE, RunTables};
