//! Each call that asks for memory succeeds at its largest.
use crate::inputs::{NAME, links, names, network};
use desks::Desk;
use networks::building::BuildRefusal;
use networks::model::Link;
use networks::network::Network;
use records::{WriteFault, first_record, push_record};
use sheet_writing::{push_name, write};
use sheets::reading::read;
use std::test::Fail;

#[test]
fn sheet(rt: HostRuntime) -> Result<(), Fail> {
    let heap = rt.alloc();
    let names = names(heap, &NAME)?;
    let links = links(heap)?;
    let bytes = write(heap, 256, names.as_slice(), links.as_slice())?;
    assert_eq!(rt; bytes.len(), 46_600);
    let sheet = read(heap, bytes.as_slice())?;
    assert_eq!(rt; sheet.network.sites(), 256);
    assert_eq!(rt; sheet.network.links(), 2048);
    assert_eq!(rt; sheet.network.lengths(2047)?, (2048, 2048));
    let last = sheet.names.name(255).ok_or("no name")?;
    assert_eq!(rt; last, NAME.as_slice());
    Ok(())
}

#[test]
fn records(rt: HostRuntime) -> Result<(), Fail> {
    let heap = rt.alloc();
    let payload = vec![in heap; 7u8; 65_536]?;
    let mut bytes = Vec::new(heap);
    push_record(&mut bytes, 9, &payload[1..], &[])?;
    push_name(&mut bytes, 0, &payload[3..])?;
    assert_eq!(rt; bytes.len(), 2 * (4 + 65_535));
    let head = first_record(bytes.as_slice()).ok_or("no record")?;
    assert_eq!(rt; (head.kind, head.payload.len()), (9, 65_535));
    let too_long = push_record(&mut bytes, 9, payload.as_slice(), &[]);
    assert_eq!(rt; too_long, Err(WriteFault::TooLong));
    Ok(())
}

#[test]
fn owned_network(rt: HostRuntime) -> Result<(), Fail> {
    let mut network = network(rt.alloc())?;
    assert_eq!(rt; network.links(), 2048);
    let one_more = network.add(Link::lit(0, 1, 1, 0, 1));
    assert_eq!(rt; one_more, Err(BuildRefusal::OutsideLimits));
    Ok(())
}

#[test]
fn desk(rt: HostRuntime) -> Result<(), Fail> {
    let desk = Desk::begin(rt.alloc(), 1, network(rt.alloc())?)?;
    let board = desk.end();
    assert_eq!(rt; board.links(), 2048);
    Ok(())
}
