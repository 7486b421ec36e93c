//! The records of a sheet, read one after the other.
#![tactic(auto)]

pub mod faults;
pub mod reader;
pub mod record;
