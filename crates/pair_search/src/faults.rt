//! How the planner and enumeration can differ.
use plain_routes::enumeration::Answer;
use std::alloc::AllocError;
use std::fmt;

/// Enumeration contradicts itself; a quote or a survey differs from it; two routes of a quote are no pair of that total; a survey does not tell the root, or not all sites; or memory is wanting, which is no difference.
#[derive(Clone, Copy)]
pub enum Fault {
    Contradiction,
    Quote {
        expected: Answer,
        quoted: Option<Answer>,
    },
    Survey {
        expected: Answer,
        surveyed: Option<Answer>,
    },
    Routes,
    Root,
    Sites,
    Memory,
}

impl From<AllocError> for Fault {
    fn from(_error: AllocError) -> Fault {
        Fault::Memory
    }
}

// What a planning told, or that it was refused otherwise.
fn write_told<W: fmt::Write>(f: &mut fmt::Formatter<W>, told: Option<Answer>) -> fmt::Result {
    match told {
        Some(answer) => write!(f, "{answer}"),
        None => f.write_str("something else"),
    }
}

impl fmt::Display for Fault {
    fn fmt<W: fmt::Write>(&self, f: &mut fmt::Formatter<W>) -> fmt::Result {
        match *self {
            Fault::Contradiction => f.write_str("enumeration contradicts itself"),
            Fault::Quote { expected, quoted } => {
                write!(f, "enumeration finds {expected}, and the quote ")?;
                write_told(f, quoted)
            }
            Fault::Survey { expected, surveyed } => {
                write!(f, "enumeration finds {expected}, and the survey ")?;
                write_told(f, surveyed)
            }
            Fault::Routes => f.write_str("the routes of the quote are no pair of its total"),
            Fault::Root => f.write_str("the survey does not tell the root"),
            Fault::Sites => f.write_str("the survey does not tell every site"),
            Fault::Memory => f.write_str("memory is wanting"),
        }
    }
}
