//! The marks of pieces: each site of a piece is marked by the piece's top.
//! They are plain u16, NONE where there is no top.
ghost use Rattle.std.specs.Prelude.{◌≡◌, ℕ, ◌<◌, ◌≤◌, reverse, length, if◌then◌else◌, nat_eq, slice_index};
ghost use Rattle.stages.specs.Marks.{together, new_mark, renewed};

use runs::NONE;

/// Whether two sites have one mark.
pub fn are_together(marks: &[u16], one: u16, other: u16) -> bool
    requires { (one < length marks.now) × (other < length marks.now) }
    ensures { result ≡ together marks.now one other }
{
    let mark = marks[one as usize];
    mark != NONE && mark == marks[other as usize]
}

/// Takes over the marks of the first sites, so many, from another table.
pub fn keep_marks(marks: &mut [u16], other: &[u16], sites: u16)
    requires { (sites ≤ length marks.old) × (sites ≤ length other.now) }
    ensures kept { (w : ℕ) → w < sites → slice_index marks.new w ≡ slice_index other.now w }
    ensures rest { (w : ℕ) → sites ≤ w → slice_index marks.new w ≡ slice_index marks.old w }
{
    let sites = sites as usize;
    marks[..sites].copy_from_slice(&other[..sites]);
}

/// The marks before any site is struck: the root's for the sites that have a tree link, none for the others.
pub fn begin_marks(marks: &mut [u16], tree: &[u16], root: u16, sites: u16)
    requires { (sites ≤ length marks.old) × (sites ≤ length tree.now) }
    ensures begun { (w : ℕ) → w < sites → slice_index marks.new w ≡ (if nat_eq (slice_index tree.now w) 65535 then 65535 else root) }
    ensures rest { (w : ℕ) → sites ≤ w → slice_index marks.new w ≡ slice_index marks.old w }
{
    keep_marks(marks, tree, sites);
    let first = &mut marks[..sites as usize];
    for mark in first.iter_mut() {
        if *mark != NONE {
            *mark = root;
        }
    }
}

/// The mark of a site once another is struck, where its parent's mark is new already.
fn mark_again(marks: &[u16], parents: &[u16], root: u16, struck: u16, site: u16) -> u16
    requires site { (site < length marks.now) × (site < length parents.now) }
    requires parent { slice_index parents.now site < length marks.now }
    ensures { result ≡ new_mark parents.now root struck marks.now site }
{
    if site == struck || marks[site as usize] == NONE {
        return NONE;
    }
    if site == root {
        return site;
    }
    let above = marks[parents[site as usize] as usize];
    if above == NONE { site } else { above }
}

/// The marks once a site is struck, made new in the order in which the sites were settled.
// Marks, order and parents come from different lenders; this is the only call on all three.
pub fn renew(marks: &mut [u16], order: &[u16], parents: &[u16], root: u16, struck: u16)
    requires sites { (i : ℕ) → i < length order.now → (slice_index order.now i < length marks.old) × (slice_index order.now i < length parents.now) × (slice_index parents.now (slice_index order.now i) < length marks.old) }
    ensures { marks.new ≡ renewed parents.now root struck (reverse order.now) marks.old }
{
    for site in order {
        let mark = mark_again(marks, parents, root, struck, *site);
        marks[*site as usize] = mark;
    }
}
