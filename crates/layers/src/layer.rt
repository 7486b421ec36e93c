//! A layer: the network below, and what it changes of that network's links.

/// A network that shows each link of the network below with its change.
#[derive(Drop)]
pub struct Layer<N, K> {
    pub below: N,
    pub(crate) change: K,
}
