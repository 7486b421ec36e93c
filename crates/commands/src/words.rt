//! The words of a command line: numbers, cost kinds, and where a network comes from.
use crate::source::Source;
use crate::total::CostKind;
use anyhow::{Context, anyhow};
use grids::GridPlan;

/// The number of a site or of a link.
pub fn number_of(word: &str) -> anyhow::Result<u16> {
    word.parse::<u16>()
        .context(format_args!("'{word}' is no number up to 65535"))
}

// A number of metres.
fn metres_of(word: &str) -> anyhow::Result<u32> {
    word.parse::<u32>()
        .context(format_args!("'{word}' is no number of metres"))
}

/// A cost kind.
pub fn kind_of(word: &str) -> anyhow::Result<CostKind> {
    match word {
        "length" => Ok(CostKind::Length),
        "poles" => Ok(CostKind::PolesFirst),
        _ => Err(anyhow!("'{word}' is no cost kind: length or poles")),
    }
}

/// A street grid, as `grid:` and its five numbers write it, or else a sheet in the file of that name.
pub fn source_of(word: &str) -> anyhow::Result<Source<'_>> {
    match word.strip_prefix("grid:") {
        Some(numbers) => {
            let plan = plan_of(numbers).context(
                "write a street grid as grid:COLUMNS:ROWS:ALONG:ACROSS:CHANNELS",
            )?;
            Ok(Source::Grid(plan))
        }
        None => Ok(Source::Sheet(word)),
    }
}

// The plan of a street grid: five numbers with colons between.
fn plan_of(numbers: &str) -> anyhow::Result<GridPlan> {
    let mut words = numbers.split(':');
    let plan = GridPlan {
        columns: number_of(words.next().unwrap_or(""))?,
        rows: number_of(words.next().unwrap_or(""))?,
        along: metres_of(words.next().unwrap_or(""))?,
        across: metres_of(words.next().unwrap_or(""))?,
        channels: number_of(words.next().unwrap_or(""))?,
    };
    match words.next() {
        None => Ok(plan),
        Some(_) => Err(anyhow!("a street grid has five numbers")),
    }
}
