//! The row of one circuit.
ghost use Rattle.std.specs.Prelude.{◌≡◌};
ghost use Rattle.certificates.specs.Calls.{held as fields_held};
ghost use Rattle.ledger.specs.Rows.{vacant, held, entry_of, is_vacant, is_held, is_confirmed, confirmed_entry};
ghost use Rattle.ledger.specs.Lending.{Lent, HandedOut};

use certificates::certificate::Certificate;
use std::mem;

/// A row is vacant, or has the certificate that its circuit is to have while it is held, and has when it is confirmed.
#[derive(Drop)]
pub enum Row {
    Vacant,
    Held(Certificate),
    Confirmed(Certificate),
}

impl Row {
    /// Whether the row is vacant.
    pub fn is_vacant(&self) -> bool
        ensures { result ≡ is_vacant (entry_of self.now) }
    {
        matches!(self, Row::Vacant)
    }

    /// Whether the row is held.
    pub fn is_held(&self) -> bool
        ensures { result ≡ is_held (entry_of self.now) }
    {
        matches!(self, Row::Held(_))
    }

    /// Whether the row is confirmed.
    pub fn is_confirmed(&self) -> bool
        ensures { result ≡ is_confirmed (entry_of self.now) }
    {
        matches!(self, Row::Confirmed(_))
    }

    /// The row's certificate, if it is not vacant.
    pub fn certificate(&self) -> Option<&Certificate>
        ensures { Lent (entry_of self.now) result }
    {
        match self {
            Row::Vacant => None,
            Row::Held(standing) | Row::Confirmed(standing) => Some(standing),
        }
    }

    /// Holds the row for a certificate, whatever stood in it.
    pub fn fill(&mut self, certificate: Certificate)
        ensures { entry_of self.new ≡ held (fields_held certificate) }
    {
        *self = Row::Held(certificate);
    }

    /// Confirms a held row; any other stays as it is.
    pub fn confirm(&mut self)
        ensures { entry_of self.new ≡ confirmed_entry (entry_of self.old) }
    {
        *self = match mem::replace(self, Row::Vacant) {
            Row::Held(certificate) => Row::Confirmed(certificate),
            other => other,
        };
    }

    /// Vacates the row, and hands out its certificate, if there was one.
    pub fn vacate(&mut self) -> Option<Certificate>
        ensures out { HandedOut (entry_of self.old) result }
        ensures after { entry_of self.new ≡ vacant }
    {
        match mem::replace(self, Row::Vacant) {
            Row::Vacant => None,
            Row::Held(certificate) | Row::Confirmed(certificate) => Some(certificate),
        }
    }
}
