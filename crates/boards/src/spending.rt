//! How a hold ends, in a confirmation or a withdrawal, and how a confirmed circuit is released.
ghost use Rattle.std.specs.Prelude.{◌≡◌, is_ok, OnErr};
ghost use Rattle.registers.specs.Events.{confirm, withdraw, release};
ghost use Rattle.boards.specs.Boards.{state};
ghost use Rattle.boards.specs.Calls.{event, Does, HandedBack, release_answer};

use crate::board::Board;
use crate::hold::{Hold, ReturnedHold};
use ledger::LedgerRefusal;
use networks::network::Network;
use piles::pairing::give_pair;

impl<N: Network> Board<N> {
    /// Confirms the circuit of a hold. A hold of another board, or whose row is not held, is handed back.
    pub fn confirm(&mut self, hold: Hold) -> Result<(), ReturnedHold>
        ensures back { HandedBack hold result }
        ensures refused { OnErr result (self.new ≡ self.old) }
        ensures does { Does (state N.Network.meaning self.old) (event (confirm hold.board hold.circuit) (is_ok result)) (state N.Network.meaning self.new) }
    {
        if hold.board != self.number || self.ledger.confirm(hold.circuit).is_err() {
            return Err(ReturnedHold { hold });
        }
        hold.spend();
        Ok(())
    }

    /// Withdraws a hold: gives its channels back and vacates its row. A hold of another board, or whose row is not held, is handed back.
    pub fn withdraw(&mut self, hold: Hold) -> Result<(), ReturnedHold>
        ensures back { HandedBack hold result }
        ensures refused { OnErr result (self.new ≡ self.old) }
        ensures does { Does (state N.Network.meaning self.old) (event (withdraw hold.board hold.circuit) (is_ok result)) (state N.Network.meaning self.new) }
    {
        if hold.board != self.number {
            return Err(ReturnedHold { hold });
        }
        let Ok(certificate) = self.ledger.withdraw(hold.circuit) else {
            return Err(ReturnedHold { hold });
        };
        give_pair(&mut self.pile, certificate.one(), certificate.two());
        hold.spend();
        Ok(())
    }

    /// Releases a confirmed circuit: gives its channels back and vacates its row.
    pub fn release(&mut self, circuit: u8) -> Result<(), LedgerRefusal>
        ensures answer { result ≡ release_answer (state N.Network.meaning self.old).rows circuit }
        ensures refused { OnErr result (self.new ≡ self.old) }
        ensures does { Does (state N.Network.meaning self.old) (event (release circuit) (is_ok result)) (state N.Network.meaning self.new) }
    {
        let released = self.ledger.release(circuit)?;
        give_pair(&mut self.pile, released.one(), released.two());
        Ok(())
    }
}
