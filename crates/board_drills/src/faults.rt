//! How a board and its register can differ.
use refusals::Refusal;
use std::alloc::AllocError;
use std::fmt;

/// What differs: a call is answered otherwise than by the register; a pair is no least pair; a survey's entry; a refusal or an answer leaves a table or the buffer otherwise; the links, the rows, or the bytes of a certificate differ; a hold is missing in hand; enumeration contradicts itself. Or memory is wanting, which is no difference.
#[derive(Clone, Copy)]
pub enum Fault {
    Answer {
        expected: Option<Refusal>,
        answered: Option<Refusal>,
    },
    Pair,
    Survey {
        site: usize,
    },
    Tables,
    Link {
        link: u16,
    },
    Row {
        circuit: u8,
    },
    Certificate,
    Hand,
    Contradiction,
    Memory,
}

impl From<AllocError> for Fault {
    fn from(_error: AllocError) -> Fault {
        Fault::Memory
    }
}

// A refusal, or that there is none.
fn write_answer<W: fmt::Write>(f: &mut fmt::Formatter<W>, answer: Option<Refusal>) -> fmt::Result {
    match answer {
        Some(refusal) => write!(f, "{refusal}"),
        None => f.write_str("accepted"),
    }
}

impl fmt::Display for Fault {
    fn fmt<W: fmt::Write>(&self, f: &mut fmt::Formatter<W>) -> fmt::Result {
        match *self {
            Fault::Answer { expected, answered } => {
                f.write_str("by the register: ")?;
                write_answer(f, expected)?;
                f.write_str("; by the board: ")?;
                write_answer(f, answered)
            }
            Fault::Pair => f.write_str("the routes are no least pair"),
            Fault::Survey { site } => write!(f, "the survey differs at site {site}"),
            Fault::Tables => f.write_str("a table or the buffer is left otherwise"),
            Fault::Link { link } => write!(f, "link {link} differs"),
            Fault::Row { circuit } => write!(f, "the row of circuit {circuit} differs"),
            Fault::Certificate => f.write_str("the certificate differs"),
            Fault::Hand => f.write_str("a hold is not in hand"),
            Fault::Contradiction => f.write_str("enumeration contradicts itself"),
            Fault::Memory => f.write_str("memory is wanting"),
        }
    }
}

/// Compares whether a call was accepted or refused, and by which refusal, and answers that of both.
pub fn same_answer<T: Drop, U: Drop>(
    expected: Result<T, Refusal>,
    answered: Result<U, Refusal>,
) -> Result<Option<Refusal>, Fault> {
    let expected = expected.err();
    let answered = answered.err();
    if expected == answered {
        Ok(expected)
    } else {
        Err(Fault::Answer { expected, answered })
    }
}
