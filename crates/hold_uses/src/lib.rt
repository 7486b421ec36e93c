//! How a hold is used: it is withdrawn, or it is confirmed and its circuit is released. Two uses that are refused stand in tools/hold_uses/.
#![tactic(auto)]

ghost use Rattle.std.specs.Prelude.{◌≡◌, is_ok};
ghost use Rattle.registers.specs.Events.{withdraw};
ghost use Rattle.boards.specs.Boards.{state};
ghost use Rattle.boards.specs.Calls.{event, Does, HandedBack};
ghost use Rattle.hold_uses.specs.Uses.{LetGo};

use boards::{Board, Held, Hold, ReturnedHold};
use ledger::LedgerRefusal;
use networks::network::Network;

/// Withdraws the hold that was just answered.
pub fn thinks_better_of_it<N: Network>(board: &mut Board<N>, held: Held) -> Result<(), ReturnedHold>
    ensures back { HandedBack held.hold result }
    ensures does { Does (state N.Network.meaning board.old) (event (withdraw held.hold.board held.hold.circuit) (is_ok result)) (state N.Network.meaning board.new) }
{
    let Held {
        hold,
        one: _,
        two: _,
    } = held;
    board.withdraw(hold)
}

/// Confirms a hold, and releases its circuit.
pub fn lets_it_go<N: Network>(
    board: &mut Board<N>,
    hold: Hold,
) -> Result<Result<(), LedgerRefusal>, ReturnedHold>
    ensures { LetGo (state N.Network.meaning board.old) hold result (state N.Network.meaning board.new) }
{
    let circuit = hold.circuit();
    match board.confirm(hold) {
        Ok(()) => Ok(board.release(circuit)),
        Err(back) => Err(back),
    }
}
