//! A drill: two boards driven by one script of random calls, and compared after each call.
use crate::calls::Call;
use crate::faults::Fault;
use crate::given::Given;
use crate::side::Side;
use crate::tallies::Tally;
use anyhow::anyhow;
use networks::network::Network;
use plain_routes::numbers::Numbers;
use std::alloc::Global;

// How many calls a drill makes.
const CALLS: u16 = 400;

// The number of the second board: in one of three drills that of the first.
fn second_number(seed: u32) -> u32 {
    if seed % 3 == 0 {
        seed
    } else {
        seed.saturating_add(1_000_000)
    }
}

// One call on one of the boards, of which both are compared afterwards.
fn step<N: Network>(
    heap: Global,
    numbers: &mut Numbers,
    acting: &mut Side<N>,
    other: &mut Side<N>,
    tally: &mut Tally,
) -> Result<(), Fault> {
    let call = Call::drawn(heap, numbers, &acting.register)?;
    let refused = acting.act(heap, numbers, call, other, tally)?;
    tally.add_call(refused);
    acting.compare()?;
    other.compare()
}

// Prints where a board and its register differ, and answers the error that ends the program.
fn report(rt: &HostRuntime, seed: u32, call: u16, fault: Fault) -> anyhow::Result<()> {
    println!(rt; "MISMATCH seed {seed} call {call}: {fault}")?;
    Err(anyhow!("a board differs from its register"))
}

// Makes all calls, two in three of them on the first board.
fn drive<N: Network>(
    rt: &HostRuntime,
    seed: u32,
    numbers: &mut Numbers,
    first: &mut Side<N>,
    second: &mut Side<N>,
    tally: &mut Tally,
) -> anyhow::Result<()> {
    for call in 0..CALLS {
        let outcome = if numbers.is_one_in(3) {
            step(rt.alloc(), numbers, second, first, tally)
        } else {
            step(rt.alloc(), numbers, first, second, tally)
        };
        if let Err(fault) = outcome {
            return report(rt, seed, call, fault);
        }
    }
    Ok(())
}

// Ends a side.
fn end<N: Network + Drop>(rt: &HostRuntime, seed: u32, side: Side<N>) -> anyhow::Result<()> {
    match side.end() {
        Ok(()) => Ok(()),
        Err(fault) => report(rt, seed, CALLS, fault),
    }
}

// Begins the second board, drives both, and ends the second.
fn drive_second<N: Network + Drop>(
    rt: &HostRuntime,
    seed: u32,
    numbers: &mut Numbers,
    given: &Given,
    network: N,
    first: &mut Side<N>,
    tally: &mut Tally,
) -> anyhow::Result<()> {
    let mut second = Side::begin(rt.alloc(), second_number(seed), network, given)?;
    // A side cannot be dropped, so what the calls came to is handed on after its end.
    let driven = drive(rt, seed, numbers, first, &mut second, tally);
    let ended = end(rt, seed, second);
    driven?;
    ended
}

/// Drives two boards over two networks that are alike, by the script of a seed.
pub fn drill<N: Network + Drop>(
    rt: &HostRuntime,
    seed: u32,
    numbers: &mut Numbers,
    given: &Given,
    networks: (N, N),
    tally: &mut Tally,
) -> anyhow::Result<()> {
    let (network, other) = networks;
    let mut first = Side::begin(rt.alloc(), seed, network, given)?;
    let driven = drive_second(rt, seed, numbers, given, other, &mut first, tally);
    let ended = end(rt, seed, first);
    driven?;
    ended?;
    tally.add_board();
    tally.add_board();
    Ok(())
}
