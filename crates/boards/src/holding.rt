//! Holding a circuit: a quote that also takes a channel on each link and fills the circuit's row.
ghost use Rattle.std.specs.Prelude.{◌≡◌, ℕ, ◌≤◌, ◌&&◌, List, [], ◌∷◌, length, take, OnErr};
ghost use Rattle.networks.specs.Meaning.{Net};
ghost use Rattle.planner_tables.specs.Room.{all_fit, long_enough};
ghost use Rattle.registers.specs.States.{shown};
ghost use Rattle.registers.specs.Events.{Event};
ghost use Rattle.registers.specs.Registers.{register};
ghost use Rattle.registers.specs.Histories.{Agrees};
ghost use Rattle.boards.specs.Boards.{state};
ghost use Rattle.boards.specs.Calls.{HoldAnswered, hold_event, Does};
ghost use Rattle.boards.specs.Settling.{Settleable, accepted_hold};
ghost use Rattle.boards.specs.Orders.{TrueHold};

use crate::board::Board;
use crate::hold::{Held, Hold};
use crate::refusing::HoldRefusal;
use costs::Cost;
use marks::Marks;
use networks::network::Network;
use pair_certificates::certifying::certify;
use piles::pairing::take_pair;
use planner_tables::Tables;
use quotes::quote;

// The links of a route, which stand at the front of its table.
fn route_in(table: &[u16], count: u16) -> &[u16]
    requires { count ≤ length table.now }
    ensures { result.now ≡ take count table.now }
{
    &table[..usize::from(count)]
}

impl<N: Network> Board<N> {
    // Fills the row of a circuit with a pair, and takes a channel on each of its links. Nothing of it can be refused.
    fn settle(&mut self, circuit: u8, root: u16, target: u16, one: &[u16], two: &[u16]) -> Hold
        requires { Settleable (state N.Network.meaning self.old) circuit root target one.now two.now }
        ensures hold { (result.board ≡ self.old.number) × (result.circuit ≡ circuit) }
        ensures does { Does (state N.Network.meaning self.old) (accepted_hold circuit root target one.now two.now) (state N.Network.meaning self.new) }
    {
        let certificate = certify(&self.pile, circuit.into(), root, target, one, two).unwrap();
        take_pair(&mut self.pile, one, two);
        self.ledger.hold(certificate).unwrap();
        Hold {
            board: self.number,
            circuit,
        }
    }

    // Plans and settles a hold.
    fn hold_pair<C: Cost + Copy, M: Marks>(
        &mut self,
        circuit: u8,
        root: u16,
        target: u16,
        tables: Tables<C, M>,
        one: &mut [u16],
        two: &mut [u16],
    ) -> Result<Held, HoldRefusal>
        ensures answer { HoldAnswered C.Cost.ops (state N.Network.meaning self.old) circuit root target (long_enough (shown (state N.Network.meaning self.old)).sites M.Marks.rooms tables.entry && all_fit (shown (state N.Network.meaning self.old)).sites (length one.old ∷ length two.old ∷ [])) result one.old two.old one.new two.new }
        ensures refused { OnErr result (self.new ≡ self.old) }
        ensures does { Does (state N.Network.meaning self.old) (hold_event circuit root target result one.new two.new) (state N.Network.meaning self.new) }
    {
        self.ledger.can_hold(circuit)?;
        let quote = quote(&self.pile, root, target, tables, one, two)?;
        let first = route_in(one, quote.one);
        let second = route_in(two, quote.two);
        Ok(Held {
            hold: self.settle(circuit, root, target, first, second),
            one: quote.one,
            two: quote.two,
        })
    }

    /// Holds a circuit for the least pair of routes from a root to a target, by the cost kind of the tables: writes both into the route tables, takes a channel on each of their links, and fills the circuit's row. All tables need as many entries as there are sites.
    // What it answers is told of the board by the private call, and here of every register that the board agrees with.
    pub fn hold<C: Cost + Copy, M: Marks>(
        &mut self,
        circuit: u8,
        root: u16,
        target: u16,
        tables: Tables<C, M>,
        one: &mut [u16],
        two: &mut [u16],
    ) -> Result<Held, HoldRefusal>
        ensures answer { HoldAnswered C.Cost.ops (state N.Network.meaning self.old) circuit root target (long_enough (shown (state N.Network.meaning self.old)).sites M.Marks.rooms tables.entry && all_fit (shown (state N.Network.meaning self.old)).sites (length one.old ∷ length two.old ∷ [])) result one.old two.old one.new two.new }
        ensures right { (number : ℕ) (given : Net) (events : List Event) → Agrees number given events (state N.Network.meaning self.old) → TrueHold C.Cost.ops (register given events) circuit root target (long_enough (shown (state N.Network.meaning self.old)).sites M.Marks.rooms tables.entry && all_fit (shown (state N.Network.meaning self.old)).sites (length one.old ∷ length two.old ∷ [])) result one.new two.new }
        ensures refused { OnErr result (self.new ≡ self.old) }
        ensures does { Does (state N.Network.meaning self.old) (hold_event circuit root target result one.new two.new) (state N.Network.meaning self.new) }
    {
        self.hold_pair(circuit, root, target, tables, one, two)
    }
}
