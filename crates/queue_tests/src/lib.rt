//! Tests of the queue on examples.
#![tactic(auto)]

#[cfg(test)]
mod draining;
#[cfg(test)]
mod examples;
