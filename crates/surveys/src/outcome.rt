//! What a survey is.

/// What a survey tells of a site: it is the root; the least total of two routes that share no link; no route leads there; every route uses one link, and this is the one that they all meet first.
#[derive(Clone, Copy)]
pub enum Outcome<C> {
    Root,
    Total(C),
    NoRoute,
    OneLink { link: u16 },
}
