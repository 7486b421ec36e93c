//! What a board is.
use ledger::Ledger;
use piles::pile::Pile;

/// A board: its number, its pile of closings over surcharges over a network, and its ledger of circuits.
#[derive(Drop)]
pub struct Board<N> {
    pub(crate) number: u32,
    pub(crate) pile: Pile<N>,
    pub(crate) ledger: Ledger,
}
