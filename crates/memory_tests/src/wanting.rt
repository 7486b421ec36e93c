//! Memory is used up and comes back a little at a time: each call is right, or wants memory.
use crate::inputs::{NAME, links, names, network};
use desks::Desk;
use grids::{GridPlan, street_grid};
use networks::building::BuildRefusal;
use networks::model::Link;
use networks::network::Network;
use networks::owned::OwnedNetwork;
use records::{WriteFault, push_record};
use sheet_writing::{SiteName, write};
use sheets::faults::SheetFault;
use sheets::reading::read;
use std::alloc::{AllocError, Global};
use std::test::Fail;

// So many blocks come back, one after the other. They are of a size that the allocator of the C
// library joins with its neighbour.
const ROUNDS: usize = 256;

const BLOCK: usize = 1040;

// The largest grid.
const PLAN: GridPlan = GridPlan {
    columns: 16,
    rows: 16,
    along: 100,
    across: 200,
    channels: 8,
};

// What a call has come to in any round.
#[derive(Clone, Copy, PartialEq, Eq, Debug)]
struct Seen {
    right: bool,
    wanting: bool,
    wrong: bool,
}

impl Seen {
    const NOTHING: Seen = Seen {
        right: false,
        wanting: false,
        wrong: false,
    };

    // With one round more: whether the answer is right, or whether the error is want of memory.
    fn and(self, told: Result<bool, bool>) -> Seen {
        Seen {
            right: self.right || told == Ok(true),
            wanting: self.wanting || told == Err(true),
            wrong: self.wrong || told == Ok(false) || told == Err(false),
        }
    }
}

// All memory that is left: blocks as large as are given, then smaller ones, and in the end those of
// every size that the allocator keeps by itself. None is written to, so that addresses run out and
// no page is taken from others. An allocator that keeps room of its own
// for small blocks, as one that checks each access, is not used up so, and the test fails.
fn use_up(heap: Global) -> Result<Vec<Vec<u8>>, AllocError> {
    let mut held = Vec::with_capacity(heap, 200_000)?;
    let mut size: usize = 1 << 46;
    for _ in 0..200_000 {
        match Vec::with_capacity(heap, size) {
            Ok(block) => held.push(block)?,
            Err(_) if size > 4096 => size /= 2,
            Err(_) if size > 16 => size -= 16,
            Err(_) => break,
        }
    }
    Ok(held)
}

fn reading(heap: Global, bytes: &[u8]) -> Result<bool, bool> {
    read(heap, bytes)
        .map(|sheet| sheet.network.links() == 2048 && sheet.names.name(255).is_some())
        .map_err(|fault| fault == SheetFault::Memory)
}

// A network without links asks for no memory, so what is wanting is the desk's.
fn desk(heap: Global) -> Result<bool, bool> {
    let network = OwnedNetwork::empty(heap, 2).map_err(|_refusal| false)?;
    match Desk::begin(heap, 1, network) {
        Ok(desk) => Ok(desk.end().sites() == 2),
        Err(_wanting) => Err(true),
    }
}

fn record(heap: Global, payload: &[u8]) -> Result<bool, bool> {
    let mut out = Vec::new(heap);
    push_record(&mut out, 9, payload, &[])
        .map(|()| out.len() == 4 + payload.len())
        .map_err(|fault| fault == WriteFault::Memory)
}

// What each call comes to with the memory that there is now.
fn round(
    heap: Global,
    names: &[SiteName],
    links: &[Link],
    sheet: &[u8],
    payload: &[u8],
) -> [Result<bool, bool>; 6] {
    let written = write(heap, 256, names, links)
        .map(|again| again.as_slice() == sheet)
        .map_err(|fault| fault == WriteFault::Memory);
    let added = network(heap)
        .map(|network| network.links() == 2048)
        .map_err(|why| why == BuildRefusal::Memory);
    let grid = street_grid(heap, PLAN)
        .map(|grid| grid.links() == 960)
        .map_err(|why| why == BuildRefusal::Memory);
    [
        reading(heap, sheet),
        written,
        added,
        grid,
        record(heap, payload),
        desk(heap),
    ]
}

#[test]
fn each_call_is_right_or_wants_memory(rt: HostRuntime) -> Result<(), Fail> {
    let heap = rt.alloc();
    let names = names(heap, &NAME)?;
    let links = links(heap)?;
    let bytes = write(heap, 256, names.as_slice(), links.as_slice())?;
    let payload = vec![in heap; 7u8; 65_535]?;
    let (names, links) = (names.as_slice(), links.as_slice());
    let mut spare = Vec::with_capacity(heap, ROUNDS)?;
    for _ in 0..ROUNDS {
        spare.push(Vec::<u8>::with_capacity(heap, BLOCK)?)?;
    }
    // Once with all memory: the stack has its pages then, and could have no new ones later.
    let at_first = round(heap, names, links, bytes.as_slice(), payload.as_slice());
    assert_eq!(rt; at_first, [Ok(true); 6]);
    let held = use_up(heap)?;
    let mut seen = [Seen::NOTHING; 6];
    for _ in 0..ROUNDS {
        let told = round(heap, names, links, bytes.as_slice(), payload.as_slice());
        for (call, answer) in seen.iter_mut().zip(told) {
            *call = call.and(answer);
        }
        drop(spare.pop());
    }
    drop(held);
    let both = Seen {
        right: true,
        wanting: true,
        wrong: false,
    };
    assert_eq!(rt; seen, [both; 6]);
    Ok(())
}
