//! Marks: a set of marked sites, and its one kind, a byte for each site.
#![tactic(auto)]

mod bytes;
mod kind;

pub use bytes::Bytes;
pub use kind::Marks;
