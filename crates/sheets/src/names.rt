//! The names of a sheet's sites, as bytes that are borrowed from it.
ghost use Rattle.std.specs.Prelude.{◌≡◌, ◌≤◌, [], ◌∷◌, ◌++◌, Some, None, MatchOption, MatchResult};
ghost use Rattle.std.specs.List.Sorted.{IsStrictlySortedBy, IsStrictlySortedBy-prop};
ghost use Rattle.std.specs.Map.{keys_of};
ghost use Rattle.std.specs.Ordering.{nat_cmp};

use std::alloc::{AllocError, Global};

/// The names of a sheet by their sites, which rise in the sheet.
// Kept in the sheet's order, so that a name is added at the end and found by halving.
#[derive(Drop)]
pub struct Names<'a> {
    by_site: Vec<(u16, &'a [u8])>,
    ghost rising: { IsStrictlySortedBy nat_cmp (keys_of by_site.items) } by { IsStrictlySortedBy-prop nat_cmp _ },
}

impl<'a> Names<'a> {
    ghost use Rattle.sheet_format.specs.Rules.{next_site};
    ghost use Rattle.sheets.specs.Naming.{named, name_of};

    // No name yet.
    pub(crate) fn none(heap: Global) -> Names<'a>
        ensures { named result ≡ [] }
    {
        Names {
            by_site: Vec::new(heap),
        }
    }

    // One name more, of a site above the others; without memory for it the names stay as they were.
    pub(crate) fn add(&mut self, site: u16, name: &'a [u8]) -> Result<(), AllocError>
        requires { next_site 0 (named self.old) ≤ site }
        ensures { MatchResult result
            (λ _. named self.new
            ≡ named self.old ++ (record { site = site; name = name.now }) ∷ [])
            (λ _. named self.new ≡ named self.old) }
    {
        self.by_site.push((site, name))?;
        Ok(())
    }

    /// The name of a site, if the sheet gives one.
    pub fn name(&self, site: u16) -> Option<&'a [u8]>
        ensures { MatchOption result (name_of (named self.now) site ≡ None)
            (λ bytes. name_of (named self.now) site ≡ Some bytes.now) }
    {
        match self.by_site.binary_search_by_key(&site, |&(at, _)| at) {
            Ok(place) => Some(self.by_site[place].1),
            Err(_) => None,
        }
    }
}
