//! The refusals of the whole product: each with its number, the value it carries and its rule in words.
#![tactic(auto)]

ghost use Rattle.std.specs.Prelude.{◌≡◌, Some};
ghost use Rattle.refusals.specs.Numbers.{number, value, rule};

use std::error::Error;
use std::fmt;

/// A refusal, with the value it carries: the byte place of a record, a link, the two numbers of the hold that is handed back, or nothing.
#[derive(Clone, Copy, PartialEq, Eq, Debug)]
pub enum Refusal {
    CutShort { place: usize },
    WrongShape { place: usize },
    OutOfOrder { place: usize },
    OutsideSheetLimits { place: usize },
    LinkCount { place: usize },
    LinkTooHigh,
    NotUsable,
    NoneTaken,
    OutsideLimits,
    NotSites,
    TableTooShort,
    NoRoute,
    OneLink { link: u16 },
    NotCircuit,
    WrongRow,
    EightHeld,
    NotHeld { board: u32, circuit: u8 },
    BufferTooShort,
    FieldOutsideLimits,
}

/// What a refusal carries.
#[derive(Clone, Copy, PartialEq, Eq, Debug)]
pub enum Carried {
    Place(usize),
    Link(u16),
    Hold(u32, u8),
    Nothing,
}

impl Refusal {
    /// The refusal's number.
    // Told by number, since that is how a refusal is known outside; `as u8` takes no enum whose cases carry values.
    pub fn number(self) -> u8
        ensures { result ≡ number self }
    {
        match self {
            Refusal::CutShort { .. } => 1,
            Refusal::WrongShape { .. } => 2,
            Refusal::OutOfOrder { .. } => 3,
            Refusal::OutsideSheetLimits { .. } => 4,
            Refusal::LinkCount { .. } => 5,
            Refusal::LinkTooHigh => 6,
            Refusal::NotUsable => 7,
            Refusal::NoneTaken => 8,
            Refusal::OutsideLimits => 9,
            Refusal::NotSites => 10,
            Refusal::TableTooShort => 11,
            Refusal::NoRoute => 12,
            Refusal::OneLink { .. } => 13,
            Refusal::NotCircuit => 14,
            Refusal::WrongRow => 15,
            Refusal::EightHeld => 16,
            Refusal::NotHeld { .. } => 17,
            Refusal::BufferTooShort => 18,
            Refusal::FieldOutsideLimits => 19,
        }
    }

    /// The value that comes with it.
    pub fn value(self) -> Carried
        ensures { result ≡ value self }
    {
        match self {
            Refusal::CutShort { place }
            | Refusal::WrongShape { place }
            | Refusal::OutOfOrder { place }
            | Refusal::OutsideSheetLimits { place }
            | Refusal::LinkCount { place } => Carried::Place(place),
            Refusal::OneLink { link } => Carried::Link(link),
            Refusal::NotHeld { board, circuit } => Carried::Hold(board, circuit),
            _ => Carried::Nothing,
        }
    }

    /// The rule that was broken, in words.
    pub fn rule(self) -> &'static str
        ensures { result.now ≡ rule self }
    {
        match self {
            Refusal::CutShort { .. } => "fewer than 4 bytes are left, or the payload is cut short",
            Refusal::WrongShape { .. } =>
                "the kind is unknown here, the payload's length is wrong for the kind, or bytes follow a certificate",
            Refusal::OutOfOrder { .. } => "the record is out of order",
            Refusal::OutsideSheetLimits { .. } =>
                "a number, an end or a byte of a name is outside its limits",
            Refusal::LinkCount { .. } =>
                "there is a link more than the header says, or fewer at the sheet's end",
            Refusal::LinkTooHigh => "the link number is too high",
            Refusal::NotUsable => "the link is not usable: it is dark or has no channel free",
            Refusal::NoneTaken => "no channel of the link is taken",
            Refusal::OutsideLimits => "a number is outside its limits",
            Refusal::NotSites => "the root or the target is not a site, or they are equal",
            Refusal::TableTooShort => "a table is too short",
            Refusal::NoRoute => "no route leads there",
            Refusal::OneLink { .. } => "every route uses this link",
            Refusal::NotCircuit => "a circuit is numbered 1 to 32",
            Refusal::WrongRow => "the circuit's row is not vacant, or not confirmed",
            Refusal::EightHeld => "eight circuits are held already",
            Refusal::NotHeld { .. } => "the hold is of another board, or its row is not held",
            Refusal::BufferTooShort => "the buffer is too short for this certificate",
            Refusal::FieldOutsideLimits => "a field is outside its limits",
        }
    }
}

impl fmt::Display for Refusal {
    ghost output = { λ r. Some (rule r) };

    fn fmt<W: fmt::Write>(&self, f: &mut fmt::Formatter<W>) -> fmt::Result {
        f.write_str(self.rule())
    }
}

impl Error for Refusal {}

/// Want of memory, which is no refusal of the list and has no number.
#[derive(Clone, Copy, PartialEq, Eq, Debug)]
pub struct Unlisted;
