//! What is done with a network.
use crate::board::{BOARD, run_script};
use crate::question::Question;
use boards::Board;
use networks::network::Network;
use sheets::names::Names;

/// A question to the planner, or a script to run on a board.
#[derive(Clone, Copy)]
pub enum Task<'a> {
    Ask(Question),
    Run { script: &'a str },
}

impl Task<'_> {
    /// Begins a board over a network, does this on it, and prints what came of it.
    pub fn perform<N: Network + Drop>(
        self,
        rt: &HostRuntime,
        network: N,
        names: Option<&Names>,
    ) -> anyhow::Result<()> {
        match self {
            Task::Ask(question) => question.ask(rt, &Board::begin(BOARD, network), names),
            Task::Run { script } => run_script(rt, network, names, script),
        }
    }
}
