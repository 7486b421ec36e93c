//! The ledger, whose type carries its rule.
ghost use Rattle.std.specs.Prelude.{◌≡◌, ◌≤◌, ℕ, true};
ghost use Rattle.ledger.specs.Rows.{entries, held_rows, is_numbered};

use crate::rows::Rows;

/// The rows of all circuits: at most eight are held, and a certificate stands in the row of its own circuit.
#[derive(Drop)]
pub struct Ledger {
    pub(crate) rows: Rows,
    ghost few: { held_rows (entries rows) ≤ 8 },
    ghost numbered: { (c : ℕ) → is_numbered (entries rows c) c ≡ true },
}
