//! How a board begins, and what it tells of its links: what its pile tells.
ghost use Rattle.std.specs.Prelude.{◌≡◌, ℕ, List, [], length};
ghost use Rattle.networks.specs.Meaning.{Net};
ghost use Rattle.networks.specs.Telling.{told, ends, lengths, channels};
ghost use Rattle.registers.specs.States.{shown};
ghost use Rattle.registers.specs.Events.{Event};
ghost use Rattle.registers.specs.Histories.{Came, Agrees};
ghost use Rattle.boards.specs.Boards.{state};
ghost use Rattle.boards.specs.Orders.{TrueChannels};

use crate::board::Board;
use ledger::Ledger;
use networks::model::NetworkRefusal;
use networks::network::Network;
use piles::pile::pile_over;

impl<N: Network> Board<N> {
    /// A board of this number over a network, with no link closed, no amounts and no circuit.
    pub fn begin(number: u32, network: N) -> Board<N>
        ensures begun { Came number (N.Network.meaning network) [] (state N.Network.meaning result) }
        ensures agrees { Agrees number (N.Network.meaning network) [] (state N.Network.meaning result) }
    {
        Board {
            number,
            pile: pile_over(network),
            ledger: Ledger::empty(),
        }
    }

    /// The board's number.
    pub fn number(&self) -> u32
        ensures { result ≡ (state N.Network.meaning self.now).number }
    {
        self.number
    }

    /// How many sites there are.
    pub fn sites(&self) -> u16
        ensures { result ≡ (shown (state N.Network.meaning self.now)).sites }
    {
        self.pile.sites()
    }

    /// How many links there are.
    pub fn links(&self) -> u16
        ensures { result ≡ length (shown (state N.Network.meaning self.now)).links }
    {
        self.pile.links()
    }

    /// A link's start and end.
    pub fn ends(&self, link: u16) -> Result<(u16, u16), NetworkRefusal>
        ensures { result ≡ told ends (shown (state N.Network.meaning self.now)) link }
    {
        self.pile.ends(link)
    }

    /// A link's metres and pole metres.
    pub fn lengths(&self, link: u16) -> Result<(u32, u32), NetworkRefusal>
        ensures { result ≡ told lengths (shown (state N.Network.meaning self.now)) link }
    {
        self.pile.lengths(link)
    }

    /// A link's channels and how many of them are taken.
    pub fn channels(&self, link: u16) -> Result<(u16, u16), NetworkRefusal>
        ensures answer { result ≡ told channels (shown (state N.Network.meaning self.now)) link }
        ensures right { (number : ℕ) (given : Net) (events : List Event) → Agrees number given events (state N.Network.meaning self.now) → TrueChannels given events link result }
    {
        self.pile.channels(link)
    }

    /// Whether a link is lit.
    pub fn is_lit(&self, link: u16) -> Result<bool, NetworkRefusal>
        ensures { result ≡ told (λ l. l.lit) (shown (state N.Network.meaning self.now)) link }
    {
        self.pile.is_lit(link)
    }
}
