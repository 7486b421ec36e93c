//! Quotes and surveys in print.
use crate::answers::{Pair, Survey};
use crate::finding::Finding;
use crate::label::Label;
use crate::refused::print_rule;
use crate::routes::{print_links_of, print_route, print_step};
use boards::Board;
use networks::network::Network;
use planner_tables::PlannerRefusal;
use sheets::names::Names;
use std::fmt;

/// What a survey finds for a site: a line of the survey.
#[derive(Clone, Copy)]
pub struct Row<'a> {
    pub site: u16,
    pub finding: Finding,
    pub label: Label<'a>,
}

impl fmt::Display for Row<'_> {
    fn fmt<W: fmt::Write>(&self, f: &mut fmt::Formatter<W>) -> fmt::Result {
        let Row {
            site,
            finding,
            label,
        } = *self;
        match finding {
            // A number here too, so that each line has the same words.
            Finding::None => write!(f, "{site} {finding} 0 {label}"),
            _ => write!(f, "{site} {finding} {label}"),
        }
    }
}

/// Prints a quote.
pub fn print_quote<N: Network>(
    rt: &HostRuntime,
    board: &Board<N>,
    names: Option<&Names>,
    quote: Result<Pair, PlannerRefusal>,
) -> anyhow::Result<()> {
    match quote {
        Ok(pair) => print_pair(rt, board, names, &pair),
        Err(PlannerRefusal::OneLink { link }) => {
            print_finding(rt, Finding::Cut(link))?;
            print_step(rt, board, names, "cut", link)
        }
        Err(PlannerRefusal::NoRoute) => print_finding(rt, Finding::None),
        Err(refusal) => print_rule(rt, refusal.into()),
    }
}

fn print_finding(rt: &HostRuntime, finding: Finding) -> anyhow::Result<()> {
    println!(rt; "{finding}")?;
    Ok(())
}

fn print_pair<N: Network>(
    rt: &HostRuntime,
    board: &Board<N>,
    names: Option<&Names>,
    pair: &Pair,
) -> anyhow::Result<()> {
    let one = pair.one.links();
    let two = pair.two.links();
    print_finding(rt, Finding::Pair(pair.total))?;
    print_links_of(rt, one, two)?;
    print_route(rt, board, names, "one", one)?;
    print_route(rt, board, names, "two", two)
}

/// Prints a survey.
pub fn print_survey<N: Network>(
    rt: &HostRuntime,
    board: &Board<N>,
    names: Option<&Names>,
    root: u16,
    survey: Result<Survey, PlannerRefusal>,
) -> anyhow::Result<()> {
    match survey {
        Ok(survey) => print_rows(rt, board, names, root, &survey),
        Err(refusal) => print_rule(rt, refusal.into()),
    }
}

fn print_rows<N: Network>(
    rt: &HostRuntime,
    board: &Board<N>,
    names: Option<&Names>,
    root: u16,
    survey: &Survey,
) -> anyhow::Result<()> {
    let sites = board.sites();
    let links = board.links();
    println!(rt; "root {root} sites {sites} links {links}")?;
    for (site, finding) in (0..sites).zip(survey.findings()) {
        if let Some(finding) = *finding {
            let label = Label::of(site, names);
            let row = Row {
                site,
                finding,
                label,
            };
            println!(rt; "{row}")?;
        }
    }
    Ok(())
}
