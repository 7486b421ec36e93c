//! The circuits of a board in print.
use crate::routes::print_links_of;
use anyhow::anyhow;
use boards::Board;
use certificates::certificate::Certificate;
use certificates::limits::LAST_CIRCUIT;
use ledger::Row;
use networks::network::Network;
use std::fmt;

// A circuit that is not vacant: how its row stands, and what its certificate says or will say.
#[derive(Clone, Copy)]
struct Standing<'a> {
    word: &'static str,
    certificate: &'a Certificate,
}

impl<'a> Standing<'a> {
    // How a row stands, if it is not vacant.
    fn of(row: &'a Row) -> Option<Standing<'a>> {
        match row {
            Row::Vacant => None,
            Row::Held(certificate) => Some(Standing {
                word: "held",
                certificate,
            }),
            Row::Confirmed(certificate) => Some(Standing {
                word: "confirmed",
                certificate,
            }),
        }
    }
}

impl fmt::Display for Standing<'_> {
    fn fmt<W: fmt::Write>(&self, f: &mut fmt::Formatter<W>) -> fmt::Result {
        let word = self.word;
        let circuit = self.certificate.circuit();
        let root = self.certificate.root();
        let target = self.certificate.target();
        let metres = self.certificate.metres();
        let poles = self.certificate.poles();
        write!(
            f,
            "circuit {circuit} {word} root {root} target {target} metres {metres} poles {poles}"
        )
    }
}

/// Prints a line for each circuit that is not vacant.
pub fn print_circuits<N: Network>(rt: &HostRuntime, board: &Board<N>) -> anyhow::Result<()> {
    for circuit in 1..=LAST_CIRCUIT {
        if let Ok(row) = board.row(circuit) {
            if let Some(standing) = Standing::of(row) {
                println!(rt; "{standing}")?;
            }
        }
    }
    Ok(())
}

/// Prints a circuit that was just held, and the links of its routes.
pub fn print_held<N: Network>(
    rt: &HostRuntime,
    board: &Board<N>,
    circuit: u8,
) -> anyhow::Result<()> {
    let standing = board.row(circuit).ok().and_then(|row| Standing::of(row));
    let Some(standing) = standing else {
        return Err(anyhow!("a circuit that was held is vacant"));
    };
    println!(rt; "{standing}")?;
    print_links_of(rt, standing.certificate.one(), standing.certificate.two())
}
