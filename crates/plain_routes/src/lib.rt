//! Routes listed plainly, what a planning is to answer by them, and drawn numbers, for programs
//! that compare the planner with plain code. Of the planner the crate knows the cost kinds alone.
#![tactic(auto)]

pub mod enumeration;
pub mod kinds;
pub mod link_sets;
pub mod numbers;
pub mod plain_costs;
pub mod routes;
