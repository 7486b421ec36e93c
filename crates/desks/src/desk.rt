//! A desk: a board, with the holds in hand.
ghost use Rattle.std.specs.Prelude.{◌≡◌, ℕ, ◌&&◌, false, cond, [], ◌∷◌, length, IfOk, IfSome, is_ok};
ghost use Rattle.planner_tables.specs.Room.{all_fit, long_enough};
ghost use Rattle.layers.specs.Refusing.{surcharge_answer};
ghost use Rattle.networks.specs.Telling.{told};
ghost use Rattle.ledger.specs.Rows.{vacant, is_held};
ghost use Rattle.ledger.specs.Keeping.{rows_in};
ghost use Rattle.registers.specs.Events.{close, reopen, surcharge, confirm, withdraw, release};
ghost use Rattle.registers.specs.States.{shown};
ghost use Rattle.registers.specs.Histories.{Came};
ghost use Rattle.boards.specs.Boards.{state};
ghost use Rattle.boards.specs.Calls.{event, Does, HoldAnswered, release_answer};
ghost use Rattle.desks.specs.Slots.{hand};
ghost use Rattle.desks.specs.Desks.{Matched, Whole, as_held, kept, accepts, offer_answer};
ghost use Rattle.desks.specs.Desks.{ending_call, held_circuits, withdrawals, DoesAll};

use crate::ending::Ending;
use crate::slots::Slots;
use boards::{Board, Held, HoldRefusal, ReturnedHold};
use costs::Cost;
use layers::refusing::SurchargeRefusal;
use ledger::LedgerRefusal;
use marks::Marks;
use networks::model::NetworkRefusal;
use networks::network::Network;
use planner_tables::Tables;
use refusals::Refusal;
use std::alloc::{AllocError, Global};

/// A board, and the holds in hand, each in the slot of its circuit: they are those of exactly the
/// circuits whose rows are held. A hold cannot be dropped, and only an accepted confirmation or
/// withdrawal ends it; the board would accept each of these.
pub struct Desk<N> {
    pub(crate) board: Board<N>,
    pub(crate) slots: Slots,
    ghost matched: { Matched board.number (hand slots.list.items) },
    ghost whole: { Whole (rows_in board.ledger) (hand slots.list.items) },
}

impl<N: Network> Desk<N> {
    ghost use Rattle.desks.specs.States.{desk_state};

    /// A desk at a board just begun, with no hold in hand.
    pub fn begin(heap: Global, number: u32, network: N) -> Result<Desk<N>, AllocError>
    where
        N: Drop,
        ensures { IfOk result (λ desk.
            Came number (N.Network.meaning network) [] (desk_state N.Network.meaning desk)) }
    {
        Ok(Desk {
            slots: Slots::empty(heap)?,
            board: Board::begin(number, network),
        })
    }

    /// The board.
    pub fn board(&self) -> &Board<N>
        ensures { result.now ≡ self.now.board }
    {
        &self.board
    }

    /// Closes a link.
    pub fn close(&mut self, link: u16) -> Result<(), NetworkRefusal>
        ensures answer { result ≡ told (λ _. tt) (desk_state N.Network.meaning self.old).bottom link }
        ensures does { Does
            (desk_state N.Network.meaning self.old)
            (event (close link) (is_ok result))
            (desk_state N.Network.meaning self.new) }
    {
        self.board.close(link)
    }

    /// Reopens a link.
    pub fn reopen(&mut self, link: u16) -> Result<(), NetworkRefusal>
        ensures answer { result ≡ told (λ _. tt) (desk_state N.Network.meaning self.old).bottom link }
        ensures does { Does
            (desk_state N.Network.meaning self.old)
            (event (reopen link) (is_ok result))
            (desk_state N.Network.meaning self.new) }
    {
        self.board.reopen(link)
    }

    /// Sets the amount on a link.
    pub fn surcharge(&mut self, link: u16, amount: u32) -> Result<(), SurchargeRefusal>
        ensures answer { result
            ≡ surcharge_answer (desk_state N.Network.meaning self.old).bottom link amount }
        ensures does { Does
            (desk_state N.Network.meaning self.old)
            (event (surcharge link amount) (is_ok result))
            (desk_state N.Network.meaning self.new) }
    {
        self.board.surcharge(link, amount)
    }

    /// Releases a confirmed circuit.
    pub fn release(&mut self, circuit: u8) -> Result<(), LedgerRefusal>
        ensures answer { result ≡ release_answer (desk_state N.Network.meaning self.old).rows circuit }
        ensures does { Does
            (desk_state N.Network.meaning self.old)
            (event (release circuit) (is_ok result))
            (desk_state N.Network.meaning self.new) }
    {
        self.board.release(circuit)
    }

    /// Holds a circuit, keeps the hold in hand, and answers how many links each of the two routes
    /// has.
    pub fn hold<C: Cost + Copy, M: Marks>(
        &mut self,
        circuit: u8,
        root: u16,
        target: u16,
        tables: Tables<C, M>,
        one: &mut [u16],
        two: &mut [u16],
    ) -> Result<(u16, u16), HoldRefusal>
        ensures answer { let s = desk_state N.Network.meaning self.old in
            let sites = (shown s).sites in
            HoldAnswered C.Cost.ops s circuit root target
            (long_enough sites M.Marks.rooms tables.entry
            && all_fit sites (length one.old ∷ length two.old ∷ []))
            (as_held s.number circuit result) one.old two.old one.new two.new }
        ensures does { Does
            (desk_state N.Network.meaning self.old)
            (kept circuit root target result one.new two.new)
            (desk_state N.Network.meaning self.new) }
    {
        let held = self.board.hold(circuit, root, target, tables, one, two)?;
        let Held { hold, one, two } = held;
        self.slots.put(circuit, hold);
        Ok((one, two))
    }

    /// Confirms a circuit whose hold is in hand, and answers whether it is.
    pub fn confirm(&mut self, circuit: u8) -> bool
        ensures answer { result ≡ is_held ((desk_state N.Network.meaning self.old).rows circuit) }
        ensures does { Does
            (desk_state N.Network.meaning self.old)
            (event (confirm (desk_state N.Network.meaning self.old).number circuit) result)
            (desk_state N.Network.meaning self.new) }
    {
        let Some(hold) = self.slots.take(circuit) else {
            return false;
        };
        match self.board.confirm(hold) {
            Ok(()) => true,
            Err(_back) => unreachable!(),
        }
    }

    /// Withdraws a circuit whose hold is in hand, and answers whether it is.
    pub fn withdraw(&mut self, circuit: u8) -> bool
        ensures answer { result ≡ is_held ((desk_state N.Network.meaning self.old).rows circuit) }
        ensures does { Does
            (desk_state N.Network.meaning self.old)
            (event (withdraw (desk_state N.Network.meaning self.old).number circuit) result)
            (desk_state N.Network.meaning self.new) }
    {
        let Some(hold) = self.slots.take(circuit) else {
            return false;
        };
        match self.board.withdraw(hold) {
            Ok(()) => true,
            Err(_back) => unreachable!(),
        }
    }

    // Whether the board accepts the holds that a board of this number gives for a circuit.
    fn accepts(&self, number: u32, circuit: u8) -> bool
        ensures { result ≡ accepts (desk_state N.Network.meaning self.now) number circuit }
    {
        if number != self.board.number() {
            return false;
        }
        match self.board.row(circuit) {
            Ok(row) => row.is_held(),
            Err(_refusal) => false,
        }
    }

    /// Offers the hold of a circuit to the board of another desk, to confirm or to withdraw it, and
    /// answers how it is refused. None if no such hold is in hand, or if that board would accept
    /// it: then it is not offered. The hold stays in hand.
    pub fn offer<O: Network>(
        &mut self,
        circuit: u8,
        ending: Ending,
        other: &mut Desk<O>,
    ) -> Option<Refusal>
        ensures answer { result ≡ offer_answer
            (desk_state N.Network.meaning self.old) circuit
            (desk_state O.Network.meaning other.old) }
        ensures own { self.new.board ≡ self.old.board }
        ensures other { other.new.board ≡ other.old.board }
        ensures does { IfSome result (λ _. Does
            (desk_state O.Network.meaning other.old)
            (event (ending_call ending (desk_state N.Network.meaning self.old).number circuit) false)
            (desk_state O.Network.meaning other.new)) }
    {
        if other.accepts(self.board.number(), circuit) {
            return None;
        }
        let hold = self.slots.take(circuit)?;
        let answer = match ending {
            Ending::Confirm => other.board.confirm(hold),
            Ending::Withdraw => other.board.withdraw(hold),
        };
        match answer {
            Ok(()) => unreachable!(),
            Err(back) => {
                let refusal = back.refusal();
                let ReturnedHold { hold } = back;
                self.slots.put(circuit, hold);
                Some(refusal)
            }
        }
    }

    /// Ends the desk: withdraws every hold in hand, the highest circuit first, and answers the
    /// board.
    pub fn end(self) -> Board<N>
        ensures does { let s = desk_state N.Network.meaning self in
            DoesAll s (withdrawals s.number (held_circuits s.rows)) (state N.Network.meaning result) }
        ensures rows { let s = desk_state N.Network.meaning self in
            (c : ℕ) → (state N.Network.meaning result).rows c
            ≡ cond (is_held (s.rows c)) vacant (s.rows c) }
    {
        let Desk { mut board, slots } = self;
        let Slots { mut list } = slots;
        while let Some(slot) = list.pop() {
            if let Some(hold) = slot {
                match board.withdraw(hold) {
                    Ok(()) => {}
                    Err(_back) => unreachable!(),
                }
            }
        }
        list.destroy_empty();
        board
    }
}
