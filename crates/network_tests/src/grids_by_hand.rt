//! The smallest grid written out, and the limits of a grid.
use grids::{GridPlan, street_grid};
use networks::building::BuildRefusal;
use networks::network::Network;
use std::test::Fail;

// The eight links of two by two streets: start, end, metres.
const SMALLEST: [(u16, u16, u32); 8] = [
    (0, 1, 100),
    (1, 0, 100),
    (2, 3, 100),
    (3, 2, 100),
    (0, 2, 200),
    (2, 0, 200),
    (1, 3, 200),
    (3, 1, 200),
];

// Grids that are refused: columns, rows, along, across, channels.
const REFUSED: [(u16, u16, u32, u32, u16); 10] = [
    (1, 2, 1, 1, 1),
    (17, 2, 1, 1, 1),
    (2, 1, 1, 1, 1),
    (2, 17, 1, 1, 1),
    (2, 2, 0, 1, 1),
    (2, 2, 1_000_001, 1, 1),
    (2, 2, 1, 0, 1),
    (2, 2, 1, 1_000_001, 1),
    (2, 2, 1, 1, 0),
    (2, 2, 1, 1, 256),
];

#[test]
fn two_by_two(rt: HostRuntime) -> Result<(), Fail> {
    let plan = GridPlan {
        columns: 2,
        rows: 2,
        along: 100,
        across: 200,
        channels: 3,
    };
    let grid = street_grid(rt.alloc(), plan)?;
    assert_eq!(rt; grid.sites(), 4);
    assert_eq!(rt; grid.links(), 8);
    for (k, (start, end, metres)) in (0..grid.links()).zip(SMALLEST) {
        assert_eq!(rt; grid.ends(k)?, (start, end));
        assert_eq!(rt; grid.lengths(k)?, (metres, 0));
        assert_eq!(rt; grid.channels(k)?, (3, 0));
        assert!(rt; grid.is_lit(k)?);
    }
    Ok(())
}

#[test]
fn limits(rt: HostRuntime) -> Result<(), Fail> {
    for (columns, rows, along, across, channels) in REFUSED {
        let plan = GridPlan {
            columns,
            rows,
            along,
            across,
            channels,
        };
        let refusal = street_grid(rt.alloc(), plan).err();
        assert_eq!(rt; refusal, Some(BuildRefusal::OutsideLimits));
    }
    let plan = GridPlan {
        columns: 16,
        rows: 16,
        along: 1_000_000,
        across: 1,
        channels: 255,
    };
    let largest = street_grid(rt.alloc(), plan)?;
    assert_eq!(rt; largest.sites(), 256);
    assert_eq!(rt; largest.links(), 960);
    Ok(())
}
