//! The surcharge layer: the amount on each link, over the network below.
use crate::layer::Layer;

/// The amounts on links.
#[derive(Drop)]
pub struct Surcharges {
    pub(crate) amounts: [u32; 2048],
}

/// A link's amount is added to its metres, which are cut off at 1,000,000; everything else shows as below.
pub type Surcharge<N> = Layer<N, Surcharges>;
