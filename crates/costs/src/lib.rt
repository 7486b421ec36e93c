//! Cost kinds: what a fibre link costs, and how costs are added, negated and compared.
#![tactic(auto)]

mod kind;
mod link;
mod metres;
mod pairs;
mod sizes;

pub use kind::{Cost, sizes_stand};
pub use link::Lengths;
pub use metres::Length;
pub use pairs::{FirstThen, Parts, PolesFirst, PolesThenMetres};
