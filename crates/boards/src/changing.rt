//! Closing, reopening and surcharging the links of a board.
ghost use Rattle.std.specs.Prelude.{◌≡◌, is_ok, OnErr};
ghost use Rattle.networks.specs.Telling.{told};
ghost use Rattle.layers.specs.Refusing.{surcharge_answer};
ghost use Rattle.registers.specs.States.{shown};
ghost use Rattle.registers.specs.Events.{close, reopen, surcharge};
ghost use Rattle.boards.specs.Boards.{state};
ghost use Rattle.boards.specs.Calls.{event, Does};

use crate::board::Board;
use layers::refusing::SurchargeRefusal;
use networks::model::NetworkRefusal;
use networks::network::Network;
use piles::changing;

impl<N: Network> Board<N> {
    /// Closes a link; a closed one stays closed.
    pub fn close(&mut self, link: u16) -> Result<(), NetworkRefusal>
        ensures answer { result ≡ told (λ _. tt) (N.Network.meaning self.old.pile.below.below) link }
        ensures refused { OnErr result (self.new ≡ self.old) }
        ensures does { Does (state N.Network.meaning self.old) (event (close link) (is_ok result)) (state N.Network.meaning self.new) }
    {
        changing::close(&mut self.pile, link)
    }

    /// Reopens a link; an open one stays open.
    pub fn reopen(&mut self, link: u16) -> Result<(), NetworkRefusal>
        ensures answer { result ≡ told (λ _. tt) (N.Network.meaning self.old.pile.below.below) link }
        ensures refused { OnErr result (self.new ≡ self.old) }
        ensures does { Does (state N.Network.meaning self.old) (event (reopen link) (is_ok result)) (state N.Network.meaning self.new) }
    {
        changing::reopen(&mut self.pile, link)
    }

    /// Sets the amount on a link, in the place of the one before.
    pub fn surcharge(&mut self, link: u16, amount: u32) -> Result<(), SurchargeRefusal>
        ensures answer { result ≡ surcharge_answer (N.Network.meaning self.old.pile.below.below) link amount }
        ensures refused { OnErr result (self.new ≡ self.old) }
        ensures does { Does (state N.Network.meaning self.old) (event (surcharge link amount) (is_ok result)) (state N.Network.meaning self.new) }
    {
        changing::surcharge(&mut self.pile, link, amount)
    }
}
