//! A script of calls run on a board, with what came of each in print.
use crate::certificate::print_issued;
use crate::circuits::{print_circuits, print_held};
use crate::planning::hold_circuit;
use crate::refused::print_rule;
use crate::script::{Call, Line};
use crate::told::print_link;
use boards::HoldRefusal;
use certificates::limits::LAST_CIRCUIT;
use desks::Desk;
use networks::network::Network;
use refusals::Refusal;
use sheets::names::Names;

/// The number of the board that the program begins.
pub const BOARD: u32 = 1;

/// Runs a script on a board over a network, and withdraws the holds that are in hand at its end.
pub fn run_script<N: Network + Drop>(
    rt: &HostRuntime,
    network: N,
    names: Option<&Names>,
    script: &str,
) -> anyhow::Result<()> {
    let mut desk = Desk::begin(rt.alloc(), BOARD, network)?;
    // An error is handed on only when the desk has ended, since a desk cannot be dropped.
    let came = run_lines(rt, &mut desk, names, script);
    let said = withdraw_all(rt, &mut desk);
    let _board = desk.end();
    came.and(said)
}

// Runs line after line; a line that is no call is told by its number.
fn run_lines<N: Network>(
    rt: &HostRuntime,
    desk: &mut Desk<N>,
    names: Option<&Names>,
    script: &str,
) -> anyhow::Result<()> {
    let mut number: u64 = 0;
    for text in script.lines() {
        number = number.saturating_add(1);
        match Line::of(rt.alloc(), text)? {
            Line::Nothing => {}
            Line::Call { text, call } => {
                println!(rt; "> {text}")?;
                make(rt, desk, names, call)?;
            }
            Line::NoCall => println!(rt; "line {number}: no call")?,
        }
    }
    Ok(())
}

// Withdraws every hold in hand, and says so. After an error in print some may still be in hand.
fn withdraw_all<N: Network>(rt: &HostRuntime, desk: &mut Desk<N>) -> anyhow::Result<()> {
    for circuit in 1..=LAST_CIRCUIT {
        if desk.withdraw(circuit) {
            println!(rt; "withdrawn at the end: circuit {circuit}")?;
        }
    }
    Ok(())
}

// Makes a call, and prints what came of it.
fn make<N: Network>(
    rt: &HostRuntime,
    desk: &mut Desk<N>,
    names: Option<&Names>,
    call: Call,
) -> anyhow::Result<()> {
    match call {
        Call::Close { link } => print_answer(rt, "closed", desk.close(link)),
        Call::Reopen { link } => print_answer(rt, "reopened", desk.reopen(link)),
        Call::Surcharge { link, amount } => {
            print_answer(rt, "surcharged", desk.surcharge(link, amount))
        }
        Call::Ask(question) => question.ask(rt, desk.board(), names),
        Call::Hold {
            circuit,
            root,
            target,
            kind,
        } => {
            let answer = hold_circuit(desk, circuit, root, target, kind);
            print_hold(rt, desk, circuit, answer)
        }
        Call::Confirm { circuit } => {
            print_ending(rt, circuit, "confirmed", desk.confirm(circuit))
        }
        Call::Withdraw { circuit } => {
            print_ending(rt, circuit, "withdrawn", desk.withdraw(circuit))
        }
        Call::Release { circuit } => print_answer(rt, "released", desk.release(circuit)),
        Call::Certificate { circuit, file } => print_issued(rt, desk.board(), circuit, file),
        Call::Link { link } => print_link(rt, desk.board(), link),
        Call::Circuits => print_circuits(rt, desk.board()),
    }
}

// Prints that a call is done, or why it is refused.
fn print_answer<R: Into<Refusal>>(
    rt: &HostRuntime,
    done: &str,
    answer: Result<(), R>,
) -> anyhow::Result<()> {
    match answer {
        Ok(()) => {
            println!(rt; "{done}")?;
            Ok(())
        }
        Err(refusal) => print_rule(rt, refusal.into()),
    }
}

// Prints what is held, or why it is refused.
fn print_hold<N: Network>(
    rt: &HostRuntime,
    desk: &Desk<N>,
    circuit: u8,
    answer: Result<(), HoldRefusal>,
) -> anyhow::Result<()> {
    match answer {
        Ok(()) => print_held(rt, desk.board(), circuit),
        Err(refusal) => print_rule(rt, refusal.into()),
    }
}

// Prints how the hold of a circuit ended, or that none is in hand.
fn print_ending(rt: &HostRuntime, circuit: u8, ending: &str, in_hand: bool) -> anyhow::Result<()> {
    if in_hand {
        println!(rt; "{ending}")?;
    } else {
        println!(rt; "no hold of circuit {circuit} is in hand")?;
    }
    Ok(())
}
