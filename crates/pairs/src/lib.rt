//! Reading a pair from the tables of both runs of a planning.
#![tactic(auto)]

mod reading;
mod routes;
mod tree;
mod walking;

pub use reading::Tables;
pub use tree::Tree;
pub use walking::start_of;
