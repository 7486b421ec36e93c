//! Records of a byte format: two bytes of length, two of kind, then the payload.
#![tactic(auto)]

mod reading;
mod writing;

pub use reading::{Head, first_record};
pub use writing::{WriteFault, push_record};
