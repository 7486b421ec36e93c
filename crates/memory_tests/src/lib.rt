//! Tests of the calls that ask for memory: at their largest, and where memory is wanting.
#![tactic(auto)]

#[cfg(test)]
mod inputs;
#[cfg(test)]
mod largest;
#[cfg(test)]
mod wanting;
