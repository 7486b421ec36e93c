//! Sheets: reading a network and its sites' names from bytes.
#![tactic(auto)]

pub mod faults;
pub mod gathering;
mod judging;
pub mod names;
pub mod reading;
