//! A desk with the register beside it, and every call made on both.
use crate::calls::Call;
use crate::certifying::compare_certificate;
use crate::comparing::{same_link, same_whole};
use crate::faults::{Fault, same_answer};
use crate::given::Given;
use crate::pairing::{Lent, expected_total, same_pair};
use crate::planning::{Ends, Told, hold, quote};
use crate::register::Register;
use crate::room::{Room, Table};
use crate::surveying::compare_survey;
use crate::tallies::Tally;
use costs::{Length, PolesFirst};
use desks::{Desk, Ending};
use networks::network::Network;
use plain_routes::enumeration::Answer;
use plain_routes::kinds::Known;
use plain_routes::numbers::Numbers;
use plain_routes::plain_costs::{Kind, PlainCost};
use refusals::Refusal;
use std::alloc::{AllocError, Global};

/// A desk and the register of its board.
pub struct Side<N> {
    pub desk: Desk<N>,
    pub register: Register,
}

// A route table drawn at random, so that it shows whether it is left.
fn drawn_table(
    heap: Global,
    numbers: &mut Numbers,
    entries: usize,
) -> Result<Vec<u16>, AllocError> {
    let mut table = Vec::with_capacity(heap, entries)?;
    for _ in 0..entries {
        table.push(numbers.below(u16::MAX))?;
    }
    Ok(table)
}

// A copy of a route table.
fn copied(heap: Global, table: &[u16]) -> Result<Vec<u16>, AllocError> {
    table.iter().copied().collect(heap)
}

// Counts a planning that found a pair, a link on every route, or no route.
fn count_plan(tally: &mut Tally, expected: Result<PlainCost, Refusal>) {
    match expected {
        Ok(total) => tally.add_plan(Answer::Pair { total }),
        Err(Refusal::NoRoute) => tally.add_plan(Answer::NoRoute),
        Err(Refusal::OneLink { link }) => tally.add_plan(Answer::OneLink { link }),
        Err(_other) => {}
    }
}

impl<N: Network> Side<N> {
    /// A board just begun, with its register.
    pub fn begin(
        heap: Global,
        number: u32,
        network: N,
        given: &Given,
    ) -> Result<Side<N>, AllocError>
    where
        N: Drop,
    {
        let register = Register::begun(heap, number, given)?;
        Ok(Side {
            desk: Desk::begin(heap, number, network)?,
            register,
        })
    }

    /// Compares all that the board tells of its links and circuits.
    pub fn compare(&self) -> Result<(), Fault> {
        same_whole(self.desk.board(), &self.register)
    }

    /// Withdraws all holds in hand, and compares the board that is left.
    pub fn end(self) -> Result<(), Fault>
    where
        N: Drop,
    {
        let Side { desk, mut register } = self;
        let board = desk.end();
        register.withdraw_all();
        same_whole(&board, &register)
    }

    fn set_closed(&mut self, link: u16, closed: bool) -> Result<Option<Refusal>, Fault> {
        let expected = self.register.set_closed(link, closed);
        let answered = if closed {
            self.desk.close(link)
        } else {
            self.desk.reopen(link)
        };
        same_answer(expected, answered.map_err(Refusal::from))
    }

    fn surcharge(&mut self, link: u16, amount: u32) -> Result<Option<Refusal>, Fault> {
        let expected = self.register.surcharge(link, amount);
        let answered = self.desk.surcharge(link, amount);
        same_answer(expected, answered.map_err(Refusal::from))
    }

    fn release(&mut self, circuit: u8) -> Result<Option<Refusal>, Fault> {
        let expected = self.register.release(circuit);
        let answered = self.desk.release(circuit);
        same_answer(expected, answered.map_err(Refusal::from))
    }

    fn confirm(&mut self, circuit: u8) -> Result<Option<Refusal>, Fault> {
        if self.desk.confirm(circuit) != self.register.is_held(circuit) {
            return Err(Fault::Hand);
        }
        self.register.confirm(circuit);
        Ok(None)
    }

    fn withdraw(&mut self, circuit: u8) -> Result<Option<Refusal>, Fault> {
        if self.desk.withdraw(circuit) != self.register.is_held(circuit) {
            return Err(Fault::Hand);
        }
        self.register.withdraw(circuit);
        Ok(None)
    }

    // Whether a hold of a circuit would be accepted by the board of another side: it has the same number, and a row that is held.
    fn is_accepted_by<O: Network>(&self, circuit: u8, other: &Side<O>) -> bool {
        self.register.number == other.register.number && other.register.is_held(circuit)
    }

    // Offers a hold to the board of another side, which refuses it; one that it would accept is not offered.
    fn offer<O: Network>(
        &mut self,
        circuit: u8,
        ending: Ending,
        other: &mut Side<O>,
    ) -> Result<Option<Refusal>, Fault> {
        let board = self.register.number;
        let is_offered = self.register.is_held(circuit) && !self.is_accepted_by(circuit, other);
        let expected = if is_offered {
            Some(Refusal::NotHeld { board, circuit })
        } else {
            None
        };
        let answered = self.desk.offer(circuit, ending, &mut other.desk);
        if answered == expected {
            Ok(expected)
        } else {
            Err(Fault::Answer { expected, answered })
        }
    }

    fn quote<C: Known>(
        &self,
        heap: Global,
        numbers: &mut Numbers,
        ends: Ends,
        room: Room,
        tally: &mut Tally,
    ) -> Result<Option<Refusal>, Fault> {
        let one = drawn_table(heap, numbers, room.of(Table::RouteOne))?;
        let two = drawn_table(heap, numbers, room.of(Table::RouteTwo))?;
        let mut one_after = copied(heap, one.as_slice())?;
        let mut two_after = copied(heap, two.as_slice())?;
        let links = self.register.plain_links(heap)?;
        let expected = expected_total(heap, &self.register, ends, C::kind(), room)?;
        let answered = quote::<N, C>(
            heap,
            self.desk.board(),
            ends,
            room,
            one_after.as_mut_slice(),
            two_after.as_mut_slice(),
        )?;
        let one = Lent::new(one.as_slice(), one_after.as_slice());
        let two = Lent::new(two.as_slice(), two_after.as_slice());
        let links = links.as_slice();
        let pair = same_pair(links, ends, C::kind(), expected, answered, one, two)?;
        count_plan(tally, expected);
        Ok(pair.err())
    }

    // What a hold is to answer.
    fn expected_hold(
        &self,
        heap: Global,
        circuit: u8,
        ends: Ends,
        kind: Kind,
        room: Room,
    ) -> Result<Result<PlainCost, Refusal>, Fault> {
        match self.register.can_hold(circuit) {
            Ok(()) => expected_total(heap, &self.register, ends, kind, room),
            Err(refusal) => Ok(Err(refusal)),
        }
    }

    fn hold<C: Known>(
        &mut self,
        heap: Global,
        numbers: &mut Numbers,
        circuit: u8,
        ends: Ends,
        room: Room,
        tally: &mut Tally,
    ) -> Result<Option<Refusal>, Fault> {
        let one = drawn_table(heap, numbers, room.of(Table::RouteOne))?;
        let two = drawn_table(heap, numbers, room.of(Table::RouteTwo))?;
        let mut one_after = copied(heap, one.as_slice())?;
        let mut two_after = copied(heap, two.as_slice())?;
        let links = self.register.plain_links(heap)?;
        let expected = self.expected_hold(heap, circuit, ends, C::kind(), room)?;
        let answered: Result<Told, Refusal> = hold::<N, C>(
            heap,
            &mut self.desk,
            circuit,
            ends,
            room,
            one_after.as_mut_slice(),
            two_after.as_mut_slice(),
        )?;
        let one = Lent::new(one.as_slice(), one_after.as_slice());
        let two = Lent::new(two.as_slice(), two_after.as_slice());
        let links = links.as_slice();
        let pair = same_pair(links, ends, C::kind(), expected, answered, one, two)?;
        count_plan(tally, expected);
        match pair {
            Ok(entry) => {
                self.register.hold(circuit, entry);
                tally.add_hold();
                Ok(None)
            }
            Err(refusal) => Ok(Some(refusal)),
        }
    }

    // Makes a planning call on both, by the cost kind that it names.
    fn plan(
        &mut self,
        heap: Global,
        numbers: &mut Numbers,
        call: Call,
        tally: &mut Tally,
    ) -> Result<Option<Refusal>, Fault> {
        match call {
            Call::Quote { kind, ends, room } => match kind {
                Kind::Length => self.quote::<Length>(heap, numbers, ends, room, tally),
                Kind::PolesFirst => self.quote::<PolesFirst>(heap, numbers, ends, room, tally),
            },
            Call::Survey { kind, root, room } => {
                let board = self.desk.board();
                let register = &self.register;
                match kind {
                    Kind::Length => compare_survey::<N, Length>(
                        heap, numbers, board, register, root, room, tally,
                    ),
                    Kind::PolesFirst => compare_survey::<N, PolesFirst>(
                        heap, numbers, board, register, root, room, tally,
                    ),
                }
            }
            Call::Hold {
                circuit,
                kind,
                ends,
                room,
            } => match kind {
                Kind::Length => self.hold::<Length>(heap, numbers, circuit, ends, room, tally),
                Kind::PolesFirst => {
                    self.hold::<PolesFirst>(heap, numbers, circuit, ends, room, tally)
                }
            },
            _ => Ok(None),
        }
    }

    /// Makes a call on the board and on the register, compares what they answer, and answers the refusal of both, if they refuse it.
    pub fn act<O: Network>(
        &mut self,
        heap: Global,
        numbers: &mut Numbers,
        call: Call,
        other: &mut Side<O>,
        tally: &mut Tally,
    ) -> Result<Option<Refusal>, Fault> {
        match call {
            Call::Close { link } => self.set_closed(link, true),
            Call::Reopen { link } => self.set_closed(link, false),
            Call::Surcharge { link, amount } => self.surcharge(link, amount),
            Call::Tell { link } => same_link(self.desk.board(), &self.register, link),
            Call::Confirm { circuit } => self.confirm(circuit),
            Call::Withdraw { circuit } => self.withdraw(circuit),
            Call::Offer { circuit, ending } => self.offer(circuit, ending, other),
            Call::Release { circuit } => self.release(circuit),
            Call::Certificate { circuit, buffer } => {
                let board = self.desk.board();
                compare_certificate(heap, numbers, board, &self.register, circuit, buffer, tally)
            }
            Call::Quote { .. } | Call::Survey { .. } | Call::Hold { .. } => {
                self.plan(heap, numbers, call, tally)
            }
        }
    }
}
