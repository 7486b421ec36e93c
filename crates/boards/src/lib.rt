//! Boards: circuits held, confirmed and released over a network whose links are closed and surcharged in between, and the theorem on every order of these calls.
#![tactic(auto)]

mod board;
mod certifying;
mod changing;
mod composing;
mod hold;
mod holding;
mod planning;
mod refusing;
mod spending;
mod telling;
mod theorems;

pub use board::Board;
pub use composing::quote_without;
pub use hold::{Held, Hold, ReturnedHold};
pub use refusing::{HoldRefusal, IssueRefusal};
pub use theorems::whatever_the_order;
