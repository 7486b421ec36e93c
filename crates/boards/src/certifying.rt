//! Writing the certificate of a confirmed circuit.
ghost use Rattle.std.specs.Prelude.{◌≡◌, ℕ, List, is_ok};
ghost use Rattle.networks.specs.Meaning.{Net};
ghost use Rattle.ledger.specs.Keeping.{ReadsRow};
ghost use Rattle.registers.specs.Events.{certificate, Event};
ghost use Rattle.registers.specs.Histories.{Agrees};
ghost use Rattle.boards.specs.Boards.{state};
ghost use Rattle.boards.specs.Calls.{event, Does, Issued};
ghost use Rattle.boards.specs.Orders.{TrueCertificate};

use crate::board::Board;
use crate::refusing::IssueRefusal;
use ledger::{LedgerRefusal, Row};
use networks::network::Network;

impl<N: Network> Board<N> {
    // Writes the certificate of a confirmed circuit.
    fn issue(&self, circuit: u8, buffer: &mut [u8]) -> Result<usize, IssueRefusal>
        ensures { Issued (state N.Network.meaning self.now).rows circuit result buffer.old buffer.new }
    {
        let certificate = self.ledger.confirmed(circuit)?;
        certificate
            .write(buffer)
            .map_err(|_| IssueRefusal::BufferTooShort)
    }

    /// Writes the certificate of a confirmed circuit at the front of a buffer, and answers the number of its bytes.
    // What is written is told of the board by the private call, and here of every register that the board agrees with.
    pub fn certificate(&self, circuit: u8, buffer: &mut [u8]) -> Result<usize, IssueRefusal>
        ensures answer { Issued (state N.Network.meaning self.now).rows circuit result buffer.old buffer.new }
        ensures right { (number : ℕ) (given : Net) (events : List Event) → Agrees number given events (state N.Network.meaning self.now) → TrueCertificate given events circuit result buffer.old buffer.new }
        ensures does { Does (state N.Network.meaning self.now) (event (certificate circuit) (is_ok result)) (state N.Network.meaning self.now) }
    {
        self.issue(circuit, buffer)
    }

    /// The row of a circuit.
    pub fn row(&self, circuit: u8) -> Result<&Row, LedgerRefusal>
        ensures { ReadsRow (state N.Network.meaning self.now).rows circuit result }
    {
        self.ledger.row(circuit)
    }
}
