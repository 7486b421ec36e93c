//! The lines of a script: each is a call on a board, nothing, or no call.
use crate::question::Question;
use crate::total::CostKind;
use crate::words::kind_of;
use std::alloc::{AllocError, Global};

/// A call on a board, as a line of a script writes it.
#[derive(Clone, Copy, PartialEq, Eq, Debug)]
pub enum Call<'a> {
    Close {
        link: u16,
    },
    Reopen {
        link: u16,
    },
    Surcharge {
        link: u16,
        amount: u32,
    },
    Ask(Question),
    Hold {
        circuit: u8,
        root: u16,
        target: u16,
        kind: CostKind,
    },
    Confirm {
        circuit: u8,
    },
    Withdraw {
        circuit: u8,
    },
    Release {
        circuit: u8,
    },
    Certificate {
        circuit: u8,
        file: Option<&'a str>,
    },
    Link {
        link: u16,
    },
    Circuits,
}

/// A line of a script: nothing but blanks and a comment, a call and how it is written, or no call.
#[derive(Clone, Copy, PartialEq, Eq, Debug)]
pub enum Line<'a> {
    Nothing,
    Call { text: &'a str, call: Call<'a> },
    NoCall,
}

impl<'a> Line<'a> {
    /// The line that a text is. A `#` and what follows it are a comment.
    pub fn of(heap: Global, text: &'a str) -> Result<Line<'a>, AllocError> {
        let text = match text.split_once('#') {
            Some((before, _comment)) => before.trim(),
            None => text.trim(),
        };
        let words: Vec<&str> = text.split_whitespace().collect(heap)?;
        if words.is_empty() {
            return Ok(Line::Nothing);
        }
        Ok(match Call::of(words.as_slice()) {
            Some(call) => Line::Call { text, call },
            None => Line::NoCall,
        })
    }
}

impl<'a> Call<'a> {
    /// The call that words write, if they write one.
    pub fn of(words: &[&'a str]) -> Option<Call<'a>> {
        match *words {
            ["quote", root, target] => quote(root, target, "length"),
            ["quote", root, target, kind] => quote(root, target, kind),
            ["survey", root] => survey(root, "length"),
            ["survey", root, kind] => survey(root, kind),
            ["hold", circuit, root, target] => hold(circuit, root, target, "length"),
            ["hold", circuit, root, target, kind] => hold(circuit, root, target, kind),
            ["certificate", circuit] => certificate(circuit, None),
            ["certificate", circuit, file] => certificate(circuit, Some(file)),
            ["surcharge", link, amount] => surcharge(link, amount),
            ["circuits"] => Some(Call::Circuits),
            [call, number] => of_number(call, number),
            _ => None,
        }
    }
}

// A call that has a link or a circuit and no other word.
fn of_number<'a>(call: &str, number: &str) -> Option<Call<'a>> {
    match call {
        "close" => Some(Call::Close {
            link: number.parse().ok()?,
        }),
        "reopen" => Some(Call::Reopen {
            link: number.parse().ok()?,
        }),
        "link" => Some(Call::Link {
            link: number.parse().ok()?,
        }),
        "confirm" => Some(Call::Confirm {
            circuit: number.parse().ok()?,
        }),
        "withdraw" => Some(Call::Withdraw {
            circuit: number.parse().ok()?,
        }),
        "release" => Some(Call::Release {
            circuit: number.parse().ok()?,
        }),
        _ => None,
    }
}

fn surcharge<'a>(link: &str, amount: &str) -> Option<Call<'a>> {
    Some(Call::Surcharge {
        link: link.parse().ok()?,
        amount: amount.parse().ok()?,
    })
}

fn quote<'a>(root: &str, target: &str, kind: &str) -> Option<Call<'a>> {
    Some(Call::Ask(Question::Quote {
        root: root.parse().ok()?,
        target: target.parse().ok()?,
        kind: kind_of(kind).ok()?,
    }))
}

fn survey<'a>(root: &str, kind: &str) -> Option<Call<'a>> {
    Some(Call::Ask(Question::Survey {
        root: root.parse().ok()?,
        kind: kind_of(kind).ok()?,
    }))
}

fn hold<'a>(circuit: &str, root: &str, target: &str, kind: &str) -> Option<Call<'a>> {
    Some(Call::Hold {
        circuit: circuit.parse().ok()?,
        root: root.parse().ok()?,
        target: target.parse().ok()?,
        kind: kind_of(kind).ok()?,
    })
}

fn certificate<'a>(circuit: &str, file: Option<&'a str>) -> Option<Call<'a>> {
    Some(Call::Certificate {
        circuit: circuit.parse().ok()?,
        file,
    })
}
