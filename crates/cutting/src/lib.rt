//! Links that cut a site off: the first link that every route to it uses.
#![tactic(auto)]

mod labels;
mod pieces;
mod searching;

pub use labels::Labels;
pub use pieces::last_piece_link;
pub use searching::cutting_link;
