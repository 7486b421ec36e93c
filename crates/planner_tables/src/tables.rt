//! The working tables of a planning.
use queue::Entry;

/// The working tables of a planning, all lent: of the first run the distance, the tree link and the parent of each site and the order in which sites were settled; of the second run the label, the entry link and the turn of each site and the order in which sites were struck; of the pieces into which the tree falls the mark of each site before the last strike and since; the queue of both runs; the marks of a pair. Each needs as many entries as there are sites. What they hold before and after means nothing.
// Tables side by side, lent as plain slices.
#[derive(Drop)]
pub struct Tables<'a, C, M> {
    pub distance: &'a mut [C],
    pub tree: &'a mut [u16],
    pub parents: &'a mut [u16],
    pub order: &'a mut [u16],
    pub label: &'a mut [C],
    pub entry: &'a mut [u16],
    pub turns: &'a mut [u16],
    pub struck: &'a mut [u16],
    pub piece: &'a mut [u16],
    pub part: &'a mut [u16],
    pub queue: &'a mut [Entry<C>],
    pub marks: &'a mut M,
}
