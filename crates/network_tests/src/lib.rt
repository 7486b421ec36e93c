//! Tests of networks, grids and layers on examples.
#![tactic(auto)]

#[cfg(test)]
mod grids_by_hand;
#[cfg(test)]
mod piles;
