//! Three layers over one network, in both orders, and takes and gives through them.
use layers::closed::Closing;
use layers::refusing::SurchargeRefusal;
use layers::surcharged::Surcharge;
use networks::model::{Link, NetworkRefusal};
use networks::network::Network;
use networks::owned::OwnedNetwork;
use std::alloc::Global;
use std::test::Fail;

// Two sites and two links between them: 700,000 metres with two channels, and a dark one.
fn two_links(heap: Global) -> Result<OwnedNetwork, Fail> {
    let mut network = OwnedNetwork::empty(heap, 2)?;
    network.add(Link {
        start: 0,
        end: 1,
        metres: 700_000,
        poles: 40,
        channels: 2,
        taken: 1,
        lit: true,
    })?;
    network.add(Link {
        start: 1,
        end: 0,
        metres: 9,
        poles: 0,
        channels: 1,
        taken: 0,
        lit: false,
    })?;
    Ok(network)
}

#[test]
fn closings_around_a_surcharge(rt: HostRuntime) -> Result<(), Fail> {
    let mut inner = Closing::over(two_links(rt.alloc())?);
    inner.close(0)?;
    let mut middle = Surcharge::over(inner);
    middle.surcharge(0, 300_001)?;
    let mut pile = Closing::over(middle);
    assert_eq!(rt; pile.lengths(0)?, (1_000_000, 40));
    assert_eq!(rt; pile.is_lit(0)?, false);
    assert_eq!(rt; pile.take(0), Err(NetworkRefusal::NotUsable));
    assert_eq!(rt; pile.reopen(0), Ok(()));
    assert_eq!(rt; pile.take(0), Err(NetworkRefusal::NotUsable));
    assert_eq!(rt; pile.give(0), Ok(()));
    assert_eq!(rt; pile.channels(0)?, (2, 0));
    assert_eq!(rt; pile.give(0), Err(NetworkRefusal::NoneTaken));
    assert_eq!(rt; pile.close(2), Err(NetworkRefusal::LinkTooHigh));
    let below = pile.into_below().into_below().into_below();
    assert_eq!(rt; below.lengths(0)?, (700_000, 40));
    assert_eq!(rt; below.channels(0)?, (2, 0));
    assert!(rt; below.is_lit(0)?);
    Ok(())
}

#[test]
fn surcharges_around_a_closing(rt: HostRuntime) -> Result<(), Fail> {
    let mut inner = Surcharge::over(two_links(rt.alloc())?);
    inner.surcharge(0, 299_000)?;
    let mut middle = Closing::over(inner);
    middle.close(1)?;
    let mut pile = Surcharge::over(middle);
    pile.surcharge(0, 500)?;
    assert_eq!(rt; pile.lengths(0)?, (999_500, 40));
    pile.surcharge(0, 2_000)?;
    assert_eq!(rt; pile.lengths(0)?, (1_000_000, 40));
    assert_eq!(rt;
        pile.surcharge(0, 1_000_001),
        Err(SurchargeRefusal::OutsideLimits)
    );
    assert_eq!(rt;
        pile.surcharge(2, 1_000_001),
        Err(SurchargeRefusal::LinkTooHigh)
    );
    assert_eq!(rt; pile.lengths(0)?, (1_000_000, 40));
    assert_eq!(rt; pile.take(0), Ok(()));
    assert_eq!(rt; pile.take(0), Err(NetworkRefusal::NotUsable));
    assert_eq!(rt; pile.channels(0)?, (2, 2));
    let mut below = pile.into_below();
    assert_eq!(rt; below.reopen(1), Ok(()));
    assert_eq!(rt; below.is_lit(1)?, false);
    assert_eq!(rt; below.lengths(0)?, (999_000, 40));
    assert_eq!(rt; below.channels(0)?, (2, 2));
    Ok(())
}
