//! Registers: what a board has come to after any calls, told without regard to how it is made. Each theorem stands on the contract of a function.
#![tactic(auto)]

ghost use Rattle.registers.specs.Theorems.{CallsKeepAgreement, BoardsAgree, CircuitsRunOnce, CircuitsAreHeldSo, TakenAreCounted};

/// A board that agrees with a register before a call agrees with the fed register after it.
pub fn calls_keep_agreement()
    ensures { CallsKeepAgreement }
{}

/// A board agrees with its register after all its calls, in whatever order they came.
#[tactic(auto, using(crate::proofs::Agreeing::boards_agree))]
pub fn boards_agree()
    ensures { BoardsAgree }
{}

/// No circuit runs over a link twice.
#[tactic(auto, using(crate::proofs::Circuits::circuits_run_once))]
pub fn circuits_run_once()
    ensures { CircuitsRunOnce }
{}

/// Each circuit of a register is what the hold that entered it was asked for and answered.
#[tactic(auto, using(crate::proofs::Circuits::circuits_are_held_so))]
pub fn circuits_are_held_so()
    ensures { CircuitsAreHeldSo }
{}

/// The channels taken are those of the beginning, and one for each circuit over the link.
#[tactic(auto, using(crate::proofs::Circuits::taken_are_counted))]
pub fn taken_are_counted()
    ensures { TakenAreCounted }
{}
