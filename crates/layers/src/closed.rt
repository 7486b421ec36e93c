//! The closing layer: which links are closed, over the network below.
use crate::layer::Layer;

/// The links that are closed.
#[derive(Drop)]
pub struct Closings {
    pub(crate) closed: [bool; 2048],
}

/// A closed link shows as dark; everything else shows as below.
pub type Closing<N> = Layer<N, Closings>;
