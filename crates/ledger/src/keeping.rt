//! Holding, confirming, withdrawing and releasing circuits, and reading their rows.
ghost use Rattle.std.specs.Prelude.{◌≡◌, ℕ, cond, is_ok, OnErr};
ghost use Rattle.certificates.specs.Calls.{held as fields_held};
ghost use Rattle.ledger.specs.Rows.{vacant, held, entered, confirmed_entry, hold_answer, confirm_answer};
ghost use Rattle.ledger.specs.Keeping.{rows_in, Withdrew, Released, ReadsConfirmed, ReadsRow};

use crate::ledger::Ledger;
use crate::refusing::LedgerRefusal;
use crate::row::Row;
use crate::rows::Rows;
use certificates::certificate::Certificate;

// The most rows that may be held.
const MOST_HELD: usize = 8;

impl Ledger {
    /// A ledger whose rows are all vacant.
    pub fn empty() -> Ledger
        ensures { (d : ℕ) → rows_in result d ≡ vacant }
    {
        Ledger {
            rows: Rows::empty(),
        }
    }

    /// The row of a circuit.
    pub fn row(&self, circuit: u8) -> Result<&Row, LedgerRefusal>
        ensures { ReadsRow (rows_in self.now) circuit result }
    {
        self.rows.row(circuit).ok_or(LedgerRefusal::NotCircuit)
    }

    /// The certificate of a confirmed circuit.
    pub fn confirmed(&self, circuit: u8) -> Result<&Certificate, LedgerRefusal>
        ensures { ReadsConfirmed (rows_in self.now) circuit result }
    {
        match self.row(circuit)? {
            Row::Confirmed(certificate) => Ok(certificate),
            _ => Err(LedgerRefusal::WrongRow),
        }
    }

    /// Whether a circuit can be held now, or why not.
    pub fn can_hold(&self, circuit: u8) -> Result<(), LedgerRefusal>
        ensures { result ≡ hold_answer (rows_in self.now) circuit }
    {
        if !self.row(circuit)?.is_vacant() {
            return Err(LedgerRefusal::WrongRow);
        }
        if MOST_HELD <= self.rows.held() {
            return Err(LedgerRefusal::EightHeld);
        }
        Ok(())
    }

    /// Holds the row of a certificate's circuit for it; refused, the ledger is as it was.
    pub fn hold(&mut self, certificate: Certificate) -> Result<(), LedgerRefusal>
        ensures answer { result ≡ hold_answer (rows_in self.old) (fields_held certificate).circuit }
        ensures after { (d : ℕ) → rows_in self.new d ≡ cond (is_ok result) (entered (fields_held certificate).circuit (held (fields_held certificate)) (rows_in self.old) d) (rows_in self.old d) }
        ensures refused { OnErr result (self.new ≡ self.old) }
    {
        let circuit = certificate.circuit() as u8;
        self.can_hold(circuit)?;
        self.rows.fill(circuit, certificate);
        Ok(())
    }

    /// Confirms a held circuit, with the certificate that it is held for; refused, the ledger is as it was.
    pub fn confirm(&mut self, circuit: u8) -> Result<(), LedgerRefusal>
        ensures answer { result ≡ confirm_answer (rows_in self.old) circuit }
        ensures after { (d : ℕ) → rows_in self.new d ≡ entered circuit (confirmed_entry (rows_in self.old circuit)) (rows_in self.old) d }
        ensures refused { OnErr result (self.new ≡ self.old) }
    {
        if !self.rows.is_held(circuit) {
            return Err(LedgerRefusal::WrongRow);
        }
        self.rows.confirm(circuit);
        Ok(())
    }

    /// Vacates the row of a held circuit, and hands out the certificate that it was held for; refused, the ledger is as it was.
    pub fn withdraw(&mut self, circuit: u8) -> Result<Certificate, LedgerRefusal>
        ensures answer { Withdrew (rows_in self.old) circuit result (rows_in self.new) }
        ensures refused { OnErr result (self.new ≡ self.old) }
    {
        if self.rows.is_held(circuit) {
            self.rows.vacate(circuit).ok_or(LedgerRefusal::WrongRow)
        } else {
            Err(LedgerRefusal::WrongRow)
        }
    }

    /// Vacates the row of a confirmed circuit, and hands out its certificate; refused, the ledger is as it was.
    pub fn release(&mut self, circuit: u8) -> Result<Certificate, LedgerRefusal>
        ensures answer { Released (rows_in self.old) circuit result (rows_in self.new) }
        ensures refused { OnErr result (self.new ≡ self.old) }
    {
        self.confirmed(circuit)?;
        self.rows.vacate(circuit).ok_or(LedgerRefusal::WrongRow)
    }
}
