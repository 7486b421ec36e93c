//! Surveys, compared with enumeration.
use crate::faults::{Fault, same_answer};
use crate::pairing::answer_for;
use crate::planning::{Ends, survey};
use crate::register::Register;
use crate::room::{Room, Table};
use crate::tallies::Tally;
use boards::Board;
use networks::network::Network;
use plain_routes::enumeration::Answer;
use plain_routes::kinds::Known;
use plain_routes::numbers::Numbers;
use refusals::Refusal;
use std::alloc::{AllocError, Global};
use surveys::Outcome;

// An entry of a survey in plain numbers.
fn plain<C: Known>(outcome: Outcome<C>) -> Option<Answer> {
    match outcome {
        Outcome::Root => None,
        Outcome::NoRoute => Some(Answer::NoRoute),
        Outcome::OneLink { link } => Some(Answer::OneLink { link }),
        Outcome::Total(total) => Some(Answer::Pair {
            total: total.plain(),
        }),
    }
}

// Entries drawn at random, so that it shows whether they are left.
fn drawn_outcomes<C: Known>(
    heap: Global,
    numbers: &mut Numbers,
    entries: usize,
) -> Result<Vec<Outcome<C>>, AllocError> {
    let mut outcomes = Vec::with_capacity(heap, entries)?;
    for _ in 0..entries {
        let link = numbers.below(u16::MAX);
        outcomes.push(Outcome::OneLink { link })?;
    }
    Ok(outcomes)
}

// Compares the entries of all sites.
fn same_entries<C: Known>(
    heap: Global,
    register: &Register,
    root: u16,
    outcomes: &[Outcome<C>],
    tally: &mut Tally,
) -> Result<(), Fault> {
    let links = register.plain_links(heap)?;
    for (target, outcome) in (0..register.sites).zip(outcomes.iter()) {
        let expected = if target == root {
            None
        } else {
            let ends = Ends { root, target };
            let answer = answer_for(heap, links.as_slice(), ends, C::kind())?;
            tally.add_plan(answer);
            Some(answer)
        };
        if plain(*outcome) != expected {
            return Err(Fault::Survey {
                site: usize::from(target),
            });
        }
    }
    Ok(())
}

// Whether the entries from a place on are as they were.
fn are_left_from<C: Known>(before: &[Outcome<C>], after: &[Outcome<C>], place: usize) -> bool {
    let both = before.iter().zip(after.iter());
    let mut behind = both.skip(place);
    before.len() == after.len() && behind.all(|(was, is)| plain(*was) == plain(*is))
}

// What a survey is to answer.
fn expected_sites(register: &Register, root: u16, room: Room) -> Result<u16, Refusal> {
    if root >= register.sites {
        Err(Refusal::NotSites)
    } else if !room.is_enough_for_survey() {
        Err(Refusal::TableTooShort)
    } else {
        Ok(register.sites)
    }
}

/// Compares a survey by one kind of cost, and answers its refusal, if it is refused.
pub fn compare_survey<N: Network, C: Known>(
    heap: Global,
    numbers: &mut Numbers,
    board: &Board<N>,
    register: &Register,
    root: u16,
    room: Room,
    tally: &mut Tally,
) -> Result<Option<Refusal>, Fault> {
    let before: Vec<Outcome<C>> = drawn_outcomes(heap, numbers, room.of(Table::Survey))?;
    let mut after: Vec<Outcome<C>> = before.iter().copied().collect(heap)?;
    let answered = survey(heap, board, root, room, after.as_mut_slice())?;
    let expected = expected_sites(register, root, room);
    let refused = same_answer(expected, answered)?;
    let told = usize::from(answered.unwrap_or(0));
    if usize::from(expected.unwrap_or(0)) != told
        || !are_left_from(before.as_slice(), after.as_slice(), told)
    {
        return Err(Fault::Tables);
    }
    if refused.is_none() {
        same_entries(heap, register, root, after.as_slice(), tally)?;
    }
    Ok(refused)
}
