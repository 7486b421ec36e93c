//! Surveys: what a root's routes to every site are like, over any network, any cost kind and any marks.
#![tactic(auto)]

mod outcome;
mod surveying;
mod telling;

pub use outcome::Outcome;
pub use surveying::survey;
