//! Desks: a board with the holds in hand, of which none is let go before it ends.
#![tactic(auto)]

mod desk;
mod ending;
mod slots;

pub use desk::Desk;
pub use ending::Ending;
