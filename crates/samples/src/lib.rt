//! The sample sheets of the repository: a small named network, the largest sheet there can be, and damaged ones.
#![tactic(auto)]

mod making;

use records::WriteFault;
use std::alloc::Global;

/// A sample sheet.
#[derive(Clone, Copy)]
pub enum Sample {
    /// Six sites and seven links around an exchange.
    Exchange,
    /// As many sites, names and links as a sheet can have.
    Largest,
    /// The exchange without its last three bytes.
    CutShort,
    /// The exchange with a record of an unknown kind behind it.
    UnknownKind,
    /// The exchange with a name behind its links.
    NameAfterLinks,
    /// A header with one site too many.
    TooManySites,
    /// The exchange with one link fewer than its header says.
    TooFewLinks,
    /// The exchange with one link more than its header says.
    TooManyLinks,
}

impl Sample {
    /// Every sample, in the order in which they are told.
    pub const ALL: [Sample; 8] = [
        Sample::Exchange,
        Sample::Largest,
        Sample::CutShort,
        Sample::UnknownKind,
        Sample::NameAfterLinks,
        Sample::TooManySites,
        Sample::TooFewLinks,
        Sample::TooManyLinks,
    ];

    /// The file that holds it.
    pub fn file_name(self) -> &'static str {
        match self {
            Sample::Exchange => "exchange.sheet",
            Sample::Largest => "largest.sheet",
            Sample::CutShort => "cut_short.sheet",
            Sample::UnknownKind => "unknown_kind.sheet",
            Sample::NameAfterLinks => "name_after_links.sheet",
            Sample::TooManySites => "too_many_sites.sheet",
            Sample::TooFewLinks => "too_few_links.sheet",
            Sample::TooManyLinks => "too_many_links.sheet",
        }
    }

    /// Its bytes.
    pub fn bytes(self, heap: Global) -> Result<Vec<u8>, WriteFault> {
        match self {
            Sample::Exchange => making::exchange(heap, 7),
            Sample::Largest => making::largest(heap),
            Sample::CutShort => making::cut_short(heap),
            Sample::UnknownKind => making::unknown_kind(heap),
            Sample::NameAfterLinks => making::name_after_links(heap),
            Sample::TooManySites => making::too_many_sites(heap),
            Sample::TooFewLinks => making::exchange(heap, 6),
            Sample::TooManyLinks => making::too_many_links(heap),
        }
    }
}
