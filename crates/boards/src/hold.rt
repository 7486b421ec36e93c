//! The hold: what a planner has in hand while a circuit is held.
ghost use Rattle.std.specs.Prelude.{◌≡◌};
ghost use Rattle.refusals.specs.declared.Refusal.TheVariants as listed;

use refusals::Refusal;

/// The hold of a circuit on a board. It cannot be copied, and it cannot be dropped: it ends in one confirmation or one withdrawal.
// So it derives neither Clone nor Drop.
pub struct Hold {
    pub(crate) board: u32,
    pub(crate) circuit: u8,
}

/// What an accepted hold answers: the hold, and how many links each of the two routes has.
pub struct Held {
    pub hold: Hold,
    pub one: u16,
    pub two: u16,
}

/// A hold that is handed back: it is of another board, or its row is not held.
pub struct ReturnedHold {
    pub hold: Hold,
}

impl Hold {
    /// The number of its board.
    pub fn board(&self) -> u32
        ensures { result ≡ self.now.board }
    {
        self.board
    }

    /// Its circuit.
    pub fn circuit(&self) -> u8
        ensures { result ≡ self.now.circuit }
    {
        self.circuit
    }

    // Ends the hold.
    pub(crate) fn spend(self) {
        let Hold {
            board: _,
            circuit: _,
        } = self;
    }
}

impl ReturnedHold {
    /// Its place in the list of all refusals, with the two numbers of the hold.
    pub fn refusal(&self) -> Refusal
        ensures { result ≡ listed.NotHeld self.now.hold.board self.now.hold.circuit }
    {
        Refusal::NotHeld {
            board: self.hold.board,
            circuit: self.hold.circuit,
        }
    }
}
