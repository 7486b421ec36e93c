//! Certificates: what a customer keeps of a circuit, as one record of bytes.
#![tactic(auto)]

pub mod certificate;
pub mod faults;
pub mod fields;
mod layout;
pub mod limits;
pub mod making;
pub mod reading;
pub mod theorems;
pub mod writing;
