//! The trait of what a layer changes of the links below it.
ghost use Rattle.std.specs.Prelude.{◌≡◌, ℕ, ◌≤◌, Bool, false};
ghost use Rattle.networks.specs.declared.model.Link.{Link};
ghost use Rattle.networks.specs.Changing.{dimmed, remeasured};

/// A change of links, each by its number: some show dark, and some with more metres. Everything else shows as below.
pub trait Change: Drop {
    // A link as the change shows it.
    ghost shown: { Self → ℕ → Link → Link };

    // Whether a link shows dark, lit or not below.
    ghost dark: { Self → ℕ → Bool };

    // The metres that a link shows, by those below.
    ghost raised: { Self → ℕ → ℕ → ℕ };

    // That no link is changed.
    ghost nothing: { Self → Type 0 };

    /// The change of no link.
    fn none() -> Self
        ensures { nothing result };

    /// Whether a link shows dark, lit or not below.
    fn is_dark(&self, link: u16) -> bool
        ensures { result ≡ dark self.now link };

    /// The metres that a link shows, with so many below.
    fn metres(&self, link: u16, below: u32) -> u32
        ensures { result ≡ raised self.now link below };

    ghost shows: { (c : Self) (k : ℕ) (l : Link) → shown c k l ≡ dimmed (dark c k) (remeasured (raised c k) l) };

    ghost more: { (c : Self) (k m : ℕ) → m ≤ 1000000 → m ≤ raised c k m };

    ghost most: { (c : Self) (k m : ℕ) → m ≤ 1000000 → raised c k m ≤ 1000000 };

    ghost none_dark: { (c : Self) → nothing c → (k : ℕ) → dark c k ≡ false };

    ghost none_raised: { (c : Self) → nothing c → (k m : ℕ) → m ≤ 1000000 → raised c k m ≡ m };
}
