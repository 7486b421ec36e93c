//! What is asked of the planner.
use crate::planning::{least_pair, survey_all};
use crate::printing::{print_quote, print_survey};
use crate::total::CostKind;
use boards::Board;
use networks::network::Network;
use sheets::names::Names;

/// A question to the planner.
#[derive(Clone, Copy, PartialEq, Eq, Debug)]
pub enum Question {
    Quote {
        root: u16,
        target: u16,
        kind: CostKind,
    },
    Survey {
        root: u16,
        kind: CostKind,
    },
}

impl Question {
    /// Asks the planner of a board, and prints what it answers.
    pub fn ask<N: Network>(
        self,
        rt: &HostRuntime,
        board: &Board<N>,
        names: Option<&Names>,
    ) -> anyhow::Result<()> {
        match self {
            Question::Quote { root, target, kind } => {
                let quote = least_pair(board, root, target, kind);
                print_quote(rt, board, names, quote)
            }
            Question::Survey { root, kind } => {
                let survey = survey_all(board, root, kind);
                print_survey(rt, board, names, root, survey)
            }
        }
    }
}
