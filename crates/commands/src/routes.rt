//! The routes of a pair, as they are told.
use crate::label::Label;
use anyhow::anyhow;
use boards::Board;
use networks::model::NetworkRefusal;
use networks::network::Network;
use sheets::names::Names;
use std::fmt;

/// The numbers of a route's links, with a blank before each.
#[derive(Clone, Copy)]
pub struct Links<'a>(pub &'a [u16]);

impl fmt::Display for Links<'_> {
    fn fmt<W: fmt::Write>(&self, f: &mut fmt::Formatter<W>) -> fmt::Result {
        for link in self.0 {
            write!(f, " {link}")?;
        }
        Ok(())
    }
}

/// A link between the sites that it joins.
#[derive(Clone, Copy)]
pub struct Step<'a> {
    link: u16,
    start: Label<'a>,
    end: Label<'a>,
    lengths: (u32, u32),
}

impl<'a> Step<'a> {
    // Asks a board for the ends and lengths of a link.
    fn of<N: Network>(
        board: &Board<N>,
        names: Option<&Names<'a>>,
        link: u16,
    ) -> Result<Step<'a>, NetworkRefusal> {
        let (start, end) = board.ends(link)?;
        let lengths = board.lengths(link)?;
        Ok(Step {
            link,
            start: Label::of(start, names),
            end: Label::of(end, names),
            lengths,
        })
    }
}

impl fmt::Display for Step<'_> {
    fn fmt<W: fmt::Write>(&self, f: &mut fmt::Formatter<W>) -> fmt::Result {
        let Step {
            link,
            start,
            end,
            ..
        } = *self;
        let (metres, poles) = self.lengths;
        write!(
            f,
            "{start} to {end} by link {link}, {metres} metres, {poles} on poles"
        )
    }
}

/// Prints the numbers of the links of both routes, a line for each route.
pub fn print_links_of(rt: &HostRuntime, one: &[u16], two: &[u16]) -> anyhow::Result<()> {
    let one = Links(one);
    let two = Links(two);
    println!(rt; "one{one}")?;
    println!(rt; "two{two}")?;
    Ok(())
}

/// Prints a link with the names of its sites, and before it the word for what it is a part of.
pub fn print_step<N: Network>(
    rt: &HostRuntime,
    board: &Board<N>,
    names: Option<&Names>,
    word: &str,
    link: u16,
) -> anyhow::Result<()> {
    match Step::of(board, names, link) {
        Ok(step) => println!(rt; "  {word}: {step}")?,
        Err(_) => return Err(anyhow!("a planning answered a link that is none")),
    }
    Ok(())
}

/// Prints a route link by link.
pub fn print_route<N: Network>(
    rt: &HostRuntime,
    board: &Board<N>,
    names: Option<&Names>,
    word: &str,
    links: &[u16],
) -> anyhow::Result<()> {
    for link in links {
        print_step(rt, board, names, word, *link)?;
    }
    Ok(())
}
