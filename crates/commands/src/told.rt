//! What a board tells of a link, and the totals of a network.
use crate::refused::print_rule;
use anyhow::anyhow;
use boards::Board;
use networks::model::NetworkRefusal;
use networks::network::Network;
use std::fmt;

/// The numbers that a board tells of one link.
#[derive(Clone, Copy)]
pub struct Told {
    ends: (u16, u16),
    lengths: (u32, u32),
    channels: (u16, u16),
    lit: bool,
}

/// Sums over all links of a network.
#[derive(Clone, Copy)]
pub struct Totals {
    metres: u64,
    poles: u64,
    channels: u64,
}

impl fmt::Display for Told {
    fn fmt<W: fmt::Write>(&self, f: &mut fmt::Formatter<W>) -> fmt::Result {
        let (start, end) = self.ends;
        let (metres, poles) = self.lengths;
        let (channels, taken) = self.channels;
        let light = if self.lit { "lit" } else { "dark" };
        write!(
            f,
            "{start} to {end}, {metres} metres, {poles} on poles, {taken} of {channels} taken, {light}"
        )
    }
}

impl fmt::Display for Totals {
    fn fmt<W: fmt::Write>(&self, f: &mut fmt::Formatter<W>) -> fmt::Result {
        let Totals {
            metres,
            poles,
            channels,
        } = *self;
        write!(f, "metres {metres} poles {poles} channels {channels}")
    }
}

/// Asks a board everything of one link.
pub fn ask<N: Network>(board: &Board<N>, link: u16) -> Result<Told, NetworkRefusal> {
    Ok(Told {
        ends: board.ends(link)?,
        lengths: board.lengths(link)?,
        channels: board.channels(link)?,
        lit: board.is_lit(link)?,
    })
}

/// Adds up what a network tells of its links.
pub fn add_up<N: Network>(network: &N) -> Result<Totals, NetworkRefusal> {
    let mut sums = Totals {
        metres: 0,
        poles: 0,
        channels: 0,
    };
    for link in 0..network.links() {
        let (metres, poles) = network.lengths(link)?;
        let (channels, _) = network.channels(link)?;
        sums.metres = sums.metres.saturating_add(u64::from(metres));
        sums.poles = sums.poles.saturating_add(u64::from(poles));
        sums.channels = sums.channels.saturating_add(u64::from(channels));
    }
    Ok(sums)
}

/// Prints what a board tells of a link.
pub fn print_link<N: Network>(rt: &HostRuntime, board: &Board<N>, link: u16) -> anyhow::Result<()> {
    match ask(board, link) {
        Ok(told) => {
            println!(rt; "{told}")?;
            Ok(())
        }
        Err(refusal) => print_rule(rt, refusal.into()),
    }
}

/// Prints a network's totals.
// A line of several values; the sums print themselves.
pub fn print_totals<N: Network>(rt: &HostRuntime, network: &N) -> anyhow::Result<()> {
    let sites = network.sites();
    let links = network.links();
    let Ok(sums) = add_up(network) else {
        return Err(anyhow!("a network refused one of its own links"));
    };
    println!(rt; "sites {sites} links {links} {sums}")?;
    Ok(())
}
