//! The ledger of circuits: thirty-two rows, one for each circuit, of which at most eight are held.
#![tactic(auto)]

mod keeping;
mod ledger;
mod refusing;
mod row;
mod rows;

pub use ledger::Ledger;
pub use refusing::LedgerRefusal;
pub use row::Row;
pub use rows::Rows;
