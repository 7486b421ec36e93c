//! What the contracts of several calls say together.
ghost use Rattle.std.specs.Prelude.{◌≡◌, ◌&&◌, [], ◌∷◌, length, nat_lt};
ghost use Rattle.planner_tables.specs.Room.{all_fit, long_enough};
ghost use Rattle.registers.specs.Events.{close};
ghost use Rattle.registers.specs.Registers.{register, links};
ghost use Rattle.boards.specs.Calls.{event};
ghost use Rattle.boards.specs.Orders.{TrueQuote};

use crate::board::Board;
use costs::Cost;
use marks::Marks;
use networks::network::Network;
use planner_tables::{PlannerRefusal, Tables};
use quotes::Quote;

/// A quote on a board just begun over a network, after a link was closed, which is refused where there is no such link: answers whether it was closed, and the quote, which is true of the register that was fed the closing.
pub fn quote_without<N: Network + Drop, C: Cost + Copy, M: Marks>(
    number: u32,
    network: N,
    link: u16,
    root: u16,
    target: u16,
    tables: Tables<C, M>,
    one: &mut [u16],
    two: &mut [u16],
) -> (bool, Result<Quote<C>, PlannerRefusal>)
    ensures closed { result.0 ≡ nat_lt link (length (N.Network.meaning network).links) }
    ensures quote { TrueQuote C.Cost.ops (links (register (N.Network.meaning network) (event (close link) result.0 ∷ []))) root target (long_enough (N.Network.meaning network).sites M.Marks.rooms tables.entry && all_fit (N.Network.meaning network).sites (length one.old ∷ length two.old ∷ [])) result.1 one.new two.new }
{
    let mut board = Board::begin(number, network);
    let closed = board.close(link).is_ok();
    (closed, board.quote(root, target, tables, one, two))
}
