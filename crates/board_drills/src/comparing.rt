//! What a board tells of its links and rows, compared with its register.
use crate::faults::{Fault, same_answer};
use crate::register::{Circuit, PlainRow, Register};
use boards::Board;
use certificates::certificate::Certificate;
use ledger::Row;
use networks::network::Network;
use refusals::Refusal;

// The highest number of a circuit, and one more.
const PAST_CIRCUITS: u8 = 33;

/// Compares all that a board tells of a link, and answers the refusal where the link's number is too high.
pub fn same_link<N: Network>(
    board: &Board<N>,
    register: &Register,
    link: u16,
) -> Result<Option<Refusal>, Fault> {
    let shown = register.shown(link);
    let ends = board.ends(link).map_err(Refusal::from);
    let lengths = board.lengths(link).map_err(Refusal::from);
    let channels = board.channels(link).map_err(Refusal::from);
    let lit = board.is_lit(link).map_err(Refusal::from);
    let _ends = same_answer(shown, ends)?;
    let _lengths = same_answer(shown, lengths)?;
    let _channels = same_answer(shown, channels)?;
    let refused = same_answer(shown, lit)?;
    if let Ok(shown) = shown {
        let same = ends == Ok((shown.start, shown.end))
            && lengths == Ok((shown.metres, shown.poles))
            && channels == Ok((shown.channels, shown.taken))
            && lit == Ok(shown.lit);
        if !same {
            return Err(Fault::Link { link });
        }
    }
    Ok(refused)
}

/// Whether a certificate is that of a circuit.
pub fn is_certificate(certificate: &Certificate, number: u8, circuit: &Circuit) -> bool {
    let lengths = circuit.lengths();
    certificate.circuit() == u16::from(number)
        && certificate.root() == circuit.root
        && certificate.target() == circuit.target
        && i64::from(certificate.metres()) == lengths.metres
        && i64::from(certificate.poles()) == lengths.poles
        && certificate.one() == circuit.one.links()
        && certificate.two() == circuit.two.links()
}

// Whether the row of a circuit has what the register has.
fn is_row(row: &Row, number: u8, kept: PlainRow) -> bool {
    match (row, kept) {
        (Row::Vacant, PlainRow::Vacant) => true,
        (Row::Held(certificate), PlainRow::Held(circuit)) => {
            is_certificate(certificate, number, &circuit)
        }
        (Row::Confirmed(certificate), PlainRow::Confirmed(circuit)) => {
            is_certificate(certificate, number, &circuit)
        }
        _ => false,
    }
}

// Compares the row of a circuit.
fn same_row<N: Network>(board: &Board<N>, register: &Register, circuit: u8) -> Result<(), Fault> {
    let same = match (board.row(circuit), register.row(circuit)) {
        (Ok(row), Ok(kept)) => is_row(row, circuit, kept),
        (Err(why), Err(kept)) => Refusal::from(why) == kept,
        _ => false,
    };
    if same {
        Ok(())
    } else {
        Err(Fault::Row { circuit })
    }
}

/// Compares all links, and a link more, and the rows of all circuits, and of the numbers before and after them.
pub fn same_whole<N: Network>(board: &Board<N>, register: &Register) -> Result<(), Fault> {
    let links = register.count();
    let counts = board.links() == links
        && board.sites() == register.sites
        && board.number() == register.number;
    if !counts {
        return Err(Fault::Link { link: links });
    }
    for link in 0..=links {
        let _refused = same_link(board, register, link)?;
    }
    for circuit in 0..=PAST_CIRCUITS {
        same_row(board, register, circuit)?;
    }
    Ok(())
}
