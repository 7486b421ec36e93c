//! The calls on a board, drawn at random, bad arguments among them.
use crate::certifying::Buffer;
use crate::planning::Ends;
use crate::register::Register;
use crate::room::Room;
use desks::Ending;
use plain_routes::numbers::Numbers;
use plain_routes::plain_costs::Kind;
use std::alloc::{AllocError, Global};

/// A call on a board. An offer hands a hold to the board of another desk.
#[derive(Clone, Copy)]
pub enum Call {
    Close {
        link: u16,
    },
    Reopen {
        link: u16,
    },
    Surcharge {
        link: u16,
        amount: u32,
    },
    Tell {
        link: u16,
    },
    Quote {
        kind: Kind,
        ends: Ends,
        room: Room,
    },
    Survey {
        kind: Kind,
        root: u16,
        room: Room,
    },
    Hold {
        circuit: u8,
        kind: Kind,
        ends: Ends,
        room: Room,
    },
    Confirm {
        circuit: u8,
    },
    Withdraw {
        circuit: u8,
    },
    Offer {
        circuit: u8,
        ending: Ending,
    },
    Release {
        circuit: u8,
    },
    Certificate {
        circuit: u8,
        buffer: Buffer,
    },
}

const AMOUNTS: [u32; 8] = [0, 1, 2, 3, 999_999, 1_000_000, 1_000_001, u32::MAX];

const BUFFERS: [Buffer; 5] = [
    Buffer::Empty,
    Buffer::Short,
    Buffer::Longer { bytes: 0 },
    Buffer::Longer { bytes: 1 },
    Buffer::Longer { bytes: 40 },
];

// A link's number, one in twelve of them too high.
fn drawn_link(numbers: &mut Numbers, links: u16) -> u16 {
    if numbers.is_one_in(12) {
        let beyond = [links, links.saturating_add(1), 2048, u16::MAX];
        numbers.one_of(&beyond).unwrap_or(links)
    } else {
        numbers.below(links)
    }
}

// A site, one in fifteen of them too high.
fn drawn_site(numbers: &mut Numbers, sites: u16) -> u16 {
    if numbers.is_one_in(15) {
        let beyond = [sites, sites.saturating_add(1), 256, u16::MAX];
        numbers.one_of(&beyond).unwrap_or(sites)
    } else {
        numbers.below(sites)
    }
}

// A root and a target: where the same site is drawn twice, in one of four calls it stays so.
fn drawn_ends(numbers: &mut Numbers, sites: u16) -> Ends {
    let root = drawn_site(numbers, sites);
    let target = drawn_site(numbers, sites);
    if root == target && !numbers.is_one_in(4) {
        let next = root.saturating_add(1);
        let target = if next < sites { next } else { 0 };
        return Ends { root, target };
    }
    Ends { root, target }
}

// The number of a circuit: mostly one of the first twelve, so that rows are met again, and one in fifteen of no circuit.
fn drawn_circuit(numbers: &mut Numbers) -> u8 {
    if numbers.is_one_in(15) {
        return numbers.one_of(&[0u8, 33, 255]).unwrap_or(0);
    }
    if numbers.is_one_in(10) {
        return numbers.one_of(&[31u8, 32]).unwrap_or(32);
    }
    u8::try_from(numbers.below(12).saturating_add(1)).unwrap_or(1)
}

fn drawn_kind(numbers: &mut Numbers) -> Kind {
    if numbers.is_one_in(2) {
        Kind::Length
    } else {
        Kind::PolesFirst
    }
}

fn drawn_ending(numbers: &mut Numbers) -> Ending {
    if numbers.is_one_in(2) {
        Ending::Confirm
    } else {
        Ending::Withdraw
    }
}

impl Call {
    // A call on the links.
    fn on_links(numbers: &mut Numbers, links: u16) -> Call {
        let link = drawn_link(numbers, links);
        match numbers.below(6) {
            0 => Call::Close { link },
            1 | 2 | 3 => Call::Reopen { link },
            4 => Call::Surcharge {
                link,
                amount: numbers.one_of(&AMOUNTS).unwrap_or(0),
            },
            _ => Call::Tell { link },
        }
    }

    // A quote, a survey or a hold.
    fn planning(numbers: &mut Numbers, sites: u16) -> Call {
        let kind = drawn_kind(numbers);
        let ends = drawn_ends(numbers, sites);
        let room = Room::drawn(numbers, sites);
        match numbers.below(8) {
            0 => Call::Quote { kind, ends, room },
            1 => Call::Survey {
                kind,
                root: ends.root,
                room,
            },
            _ => Call::Hold {
                circuit: drawn_circuit(numbers),
                kind,
                ends,
                room,
            },
        }
    }

    // A call on a circuit, in half of the calls on one whose row is not vacant.
    fn on_circuits(
        heap: Global,
        numbers: &mut Numbers,
        register: &Register,
    ) -> Result<Call, AllocError> {
        let standing = register.standing(heap)?;
        let drawn = drawn_circuit(numbers);
        let circuit = if numbers.is_one_in(2) {
            numbers.one_of(standing.as_slice()).unwrap_or(drawn)
        } else {
            drawn
        };
        Ok(match numbers.below(8) {
            0 => Call::Confirm { circuit },
            1 => Call::Withdraw { circuit },
            2 | 3 => Call::Release { circuit },
            4 => Call::Offer {
                circuit,
                ending: drawn_ending(numbers),
            },
            _ => Call::Certificate {
                circuit,
                buffer: numbers.one_of(&BUFFERS).unwrap_or(Buffer::Empty),
            },
        })
    }

    /// A call on the board of a register.
    pub fn drawn(
        heap: Global,
        numbers: &mut Numbers,
        register: &Register,
    ) -> Result<Call, AllocError> {
        match numbers.below(10) {
            0 | 1 => Ok(Call::on_links(numbers, register.count())),
            2 | 3 | 4 | 5 => Ok(Call::planning(numbers, register.sites)),
            _ => Call::on_circuits(heap, numbers, register),
        }
    }
}
