//! Where a network comes from: a sheet or a street grid.
use crate::refused::{print_fault, print_rule};
use crate::sheet::bytes_of;
use crate::task::Task;
use anyhow::anyhow;
use grids::{GridPlan, street_grid};
use networks::building::BuildRefusal;
use refusals::Refusal;
use sheets::gathering::Sheet;
use sheets::reading::read;

/// A sheet by the name of its file, or a street grid by its plan.
#[derive(Clone, Copy, PartialEq, Eq, Debug)]
pub enum Source<'a> {
    Sheet(&'a str),
    Grid(GridPlan),
}

impl Source<'_> {
    /// Does a task with this network, and prints what came of it.
    pub fn perform(self, rt: &HostRuntime, task: Task) -> anyhow::Result<()> {
        match self {
            Source::Sheet(file) => {
                let bytes = bytes_of(rt, file)?;
                perform_on_sheet(rt, bytes.as_slice(), task)
            }
            Source::Grid(plan) => perform_on_grid(rt, plan, task),
        }
    }
}

/// Does a task with the network of a sheet, or prints the sheet's fault.
pub fn perform_on_sheet(rt: &HostRuntime, bytes: &[u8], task: Task) -> anyhow::Result<()> {
    match read(rt.alloc(), bytes) {
        Ok(sheet) => {
            let Sheet { network, names } = sheet;
            task.perform(rt, network, Some(&names))
        }
        Err(fault) => print_fault(rt, fault),
    }
}

fn perform_on_grid(rt: &HostRuntime, plan: GridPlan, task: Task) -> anyhow::Result<()> {
    match street_grid(rt.alloc(), plan) {
        Ok(network) => task.perform(rt, network, None),
        Err(BuildRefusal::OutsideLimits) => print_rule(rt, Refusal::OutsideLimits),
        Err(BuildRefusal::Memory) => Err(anyhow!("there is no memory for a street grid")),
    }
}
