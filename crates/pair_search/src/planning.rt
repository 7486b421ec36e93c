//! Quotes and surveys, in working tables of their own.
use costs::Cost;
use marks::{Bytes, Marks};
use networks::network::Network;
use planner_tables::{PlannerRefusal, Tables};
use queue::Entry;
use quotes::{Quote, quote};
use std::alloc::{AllocError, Global};
use surveys::{Outcome, survey};

/// The most sites that a network has here.
pub const MOST_SITES: usize = 8;

// A table with an entry for each site. On the heap: that an array of costs of any kind has room on the stack is not known to the prover.
fn table_of<T: Copy>(heap: Global, entry: T) -> Result<Vec<T>, AllocError> {
    let mut table = Vec::with_capacity(heap, MOST_SITES)?;
    for _ in 0..MOST_SITES {
        table.push(entry)?;
    }
    Ok(table)
}

// The tables of one planning: those without costs are on the stack, and live as long as the call that they are handed to.
macro_rules! tables {
    ($distance:expr, $label:expr, $queue:expr, $marks:expr) => {
        Tables {
            distance: $distance.as_mut_slice(),
            tree: &mut [0; MOST_SITES],
            parents: &mut [0; MOST_SITES],
            order: &mut [0; MOST_SITES],
            label: $label.as_mut_slice(),
            entry: &mut [0; MOST_SITES],
            turns: &mut [0; MOST_SITES],
            struck: &mut [0; MOST_SITES],
            piece: &mut [0; MOST_SITES],
            part: &mut [0; MOST_SITES],
            queue: $queue.as_mut_slice(),
            marks: $marks,
        }
    };
}

/// A quote with both route tables, or its refusal.
pub type QuoteAnswer<C> = Result<Planned<C>, PlannerRefusal>;

/// A quote, with both route tables.
#[derive(Clone, Copy)]
pub struct Planned<C> {
    pub quote: Quote<C>,
    one: [u16; MOST_SITES],
    two: [u16; MOST_SITES],
}

impl<C> Planned<C> {
    /// The links of the first route.
    pub fn one(&self) -> &[u16] {
        let count = usize::from(self.quote.one);
        self.one.get(..count).unwrap_or(&[])
    }

    /// The links of the second route.
    pub fn two(&self) -> &[u16] {
        let count = usize::from(self.quote.two);
        self.two.get(..count).unwrap_or(&[])
    }
}

// Here and below it is for any marks, since the prover's borrow check does not cover tables over marks that are known to be lent themselves.
fn quote_with<N: Network, C: Cost + Copy, M: Marks>(
    heap: Global,
    network: &N,
    root: u16,
    target: u16,
    marks: &mut M,
) -> Result<QuoteAnswer<C>, AllocError> {
    let zero = C::zero();
    let mut distance = table_of(heap, zero)?;
    let mut label = table_of(heap, zero)?;
    let mut queue = table_of(
        heap,
        Entry {
            cost: zero,
            site: 0,
        },
    )?;
    let mut one = [0; MOST_SITES];
    let mut two = [0; MOST_SITES];
    let answer = quote(
        network,
        root,
        target,
        tables!(distance, label, queue, marks),
        &mut one,
        &mut two,
    );
    match answer {
        Ok(quote) => Ok(Ok(Planned { quote, one, two })),
        Err(refusal) => Ok(Err(refusal)),
    }
}

fn survey_with<N: Network, C: Cost + Copy, M: Marks>(
    heap: Global,
    network: &N,
    root: u16,
    marks: &mut M,
) -> Result<Vec<Outcome<C>>, AllocError> {
    let zero = C::zero();
    let mut distance = table_of(heap, zero)?;
    let mut label = table_of(heap, zero)?;
    let mut queue = table_of(
        heap,
        Entry {
            cost: zero,
            site: 0,
        },
    )?;
    let mut outcomes = table_of(heap, Outcome::NoRoute)?;
    let told = survey(
        network,
        root,
        tables!(distance, label, queue, marks),
        outcomes.as_mut_slice(),
    );
    outcomes.truncate(told.map_or(0, usize::from));
    Ok(outcomes)
}

/// The quote from a root to a target.
pub fn quote_to<N: Network, C: Cost + Copy>(
    heap: Global,
    network: &N,
    root: u16,
    target: u16,
) -> Result<QuoteAnswer<C>, AllocError> {
    let mut bytes = [0u8; MOST_SITES];
    let mut marks = Bytes::new(&mut bytes);
    quote_with(heap, network, root, target, &mut marks)
}

/// The survey from a root: the outcome of every site in the order of their numbers, and none if it is refused.
pub fn survey_from<N: Network, C: Cost + Copy>(
    heap: Global,
    network: &N,
    root: u16,
) -> Result<Vec<Outcome<C>>, AllocError> {
    let mut bytes = [0u8; MOST_SITES];
    let mut marks = Bytes::new(&mut bytes);
    survey_with(heap, network, root, &mut marks)
}
