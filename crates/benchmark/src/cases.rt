//! The networks that are surveyed.
use crate::making;
use records::WriteFault;
use std::alloc::Global;

/// A benchmark network.
#[derive(Clone, Copy)]
pub enum Case {
    /// As many sites and links as a sheet can have, drawn at random.
    Random,
    /// The largest street grid.
    Grid,
    /// A chain of doubled links with a site behind a cutting link at each step.
    Chain,
}

impl Case {
    /// Every network, in the order in which they are told.
    pub const ALL: [Case; 3] = [Case::Random, Case::Grid, Case::Chain];

    /// Its name, which is that of its file too.
    pub fn name(self) -> &'static str {
        match self {
            Case::Random => "random",
            Case::Grid => "grid",
            Case::Chain => "chain",
        }
    }

    /// The bytes of its sheet.
    pub fn sheet(self, heap: Global) -> Result<Vec<u8>, WriteFault> {
        match self {
            Case::Random => making::random(heap),
            Case::Grid => making::grid(heap),
            Case::Chain => making::chain(heap),
        }
    }
}
