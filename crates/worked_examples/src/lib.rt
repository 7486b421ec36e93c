//! The worked examples of plannings and sheets, as one theorem over one table.
#![tactic(auto)]

ghost use Rattle.std.specs.List.{AllByRecursion};
ghost use Rattle.worked_examples.specs.Table.{Holds, table};

/// Every example of the table holds.
pub fn examples_stand()
    ensures { AllByRecursion Holds table }
{}
