//! The rows of all circuits.
ghost use Rattle.std.specs.Prelude.{◌≡◌, ◌-◌, ℕ, true, cond, Some, None};
ghost use Rattle.certificates.specs.Limits.{circuit_sound};
ghost use Rattle.certificates.specs.Calls.{held as fields_held};
ghost use Rattle.ledger.specs.Rows.{vacant, held, entries, entered, held_rows, is_held, confirmed_entry};
ghost use Rattle.ledger.specs.Lending.{HandedOut, IsRow};

use crate::row::Row;
use certificates::certificate::Certificate;
use certificates::limits::LAST_CIRCUIT;
use std::array;

/// The rows of all circuits, the row of circuit 1 first.
#[derive(Drop)]
pub struct Rows {
    pub(crate) list: [Row; 32],
}

// The place of a circuit's row, if this is a circuit's number.
fn place_of(circuit: u8) -> Option<usize>
    ensures { result ≡ cond (circuit_sound circuit) (Some (circuit - 1)) None }
{
    let place = usize::from(circuit).checked_sub(1)?;
    if place < usize::from(LAST_CIRCUIT) {
        Some(place)
    } else {
        None
    }
}

impl Rows {
    /// Rows that are all vacant.
    pub(crate) fn empty() -> Rows
        ensures { (d : ℕ) → entries result d ≡ vacant }
    {
        Rows {
            list: array::from_fn(|_| Row::Vacant),
        }
    }

    /// The row of a circuit, if this is a circuit's number.
    pub(crate) fn row(&self, circuit: u8) -> Option<&Row>
        ensures { IsRow (entries self.now) circuit result }
    {
        self.list.get(place_of(circuit)?)
    }

    /// Whether the row of this circuit is held.
    pub(crate) fn is_held(&self, circuit: u8) -> bool
        ensures { result ≡ is_held (entries self.now circuit) }
    {
        self.row(circuit).is_some_and(|row| row.is_held())
    }

    /// How many rows are held.
    pub(crate) fn held(&self) -> usize
        ensures { result ≡ held_rows (entries self.now) }
    {
        self.list.iter().filter(|row| row.is_held()).count()
    }

    /// Holds the row of a circuit for a certificate, whatever stood in it.
    pub(crate) fn fill(&mut self, circuit: u8, certificate: Certificate)
        requires { circuit_sound circuit ≡ true }
        ensures { (d : ℕ) → entries self.new d ≡ entered circuit (held (fields_held certificate)) (entries self.old) d }
    {
        let row = &mut self.list[usize::from(circuit) - 1];
        row.fill(certificate);
    }

    /// Confirms the row of a circuit, if it is held; any other stays as it is.
    pub(crate) fn confirm(&mut self, circuit: u8)
        ensures { (d : ℕ) → entries self.new d ≡ entered circuit (confirmed_entry (entries self.old circuit)) (entries self.old) d }
    {
        if let Some(place) = place_of(circuit) {
            let row = &mut self.list[place];
            row.confirm();
        }
    }

    /// Vacates the row of a circuit, and hands out its certificate, if there was one.
    pub(crate) fn vacate(&mut self, circuit: u8) -> Option<Certificate>
        ensures out { HandedOut (entries self.old circuit) result }
        ensures after { (d : ℕ) → entries self.new d ≡ entered circuit vacant (entries self.old) d }
    {
        let place = place_of(circuit)?;
        let row = &mut self.list[place];
        row.vacate()
    }
}
