//! Tests of cost kinds on examples.
#![tactic(auto)]

#[cfg(test)]
mod examples;
