//! What the closing layer does beyond every layer: links are closed and reopened.
ghost use Rattle.std.specs.Prelude.{◌≡◌, ℕ, true, false, is_ok, is_err, if◌then◌else◌, nat_eq, refl};
ghost use Rattle.std.proofs.Common.{rules};
ghost use Rattle.networks.specs.Telling.{told};
ghost use Rattle.layers.specs.Shown.{is_closed, marks, closing, closed_over};

use crate::change::Change;
use crate::closed::{Closing, Closings};
use networks::model::NetworkRefusal;
use networks::network::Network;

impl Change for Closings {
    ghost shown = { λ c. closing (is_closed c) };

    ghost dark = { is_closed };

    ghost raised = { λ _ _ metres. metres };

    ghost nothing = { λ c. (k : ℕ) → is_closed c k ≡ false };

    ghost shows = { λ c k l. refl };

    ghost more = { Prim.search rules };

    ghost most = { Prim.search rules };

    ghost none_dark = { Prim.search rules };

    ghost none_raised = { Prim.search rules };

    fn none() -> Closings {
        Closings {
            closed: [false; 2048],
        }
    }

    fn is_dark(&self, link: u16) -> bool {
        self.closed.get(usize::from(link)).copied().unwrap_or(false)
    }

    fn metres(&self, _link: u16, below: u32) -> u32 {
        below
    }
}

impl<N: Network> Closing<N> {
    /// Closes a link; a closed one stays closed.
    // This call and the next are one text, `mark`; each has a contract of its own.
    pub fn close(&mut self, link: u16) -> Result<(), NetworkRefusal>
        ensures answer { result ≡ told (λ _. tt) (N.Network.meaning self.old.below) link }
        ensures below { self.new.below ≡ self.old.below }
        ensures marks { (k : ℕ) → marks self.new k ≡ (if is_ok result then (if nat_eq k link then true else marks self.old k) else marks self.old k) }
        ensures refused { is_err result ≡ true → self.new ≡ self.old }
    {
        self.mark(link, true)
    }

    /// Reopens a link; an open one stays open.
    pub fn reopen(&mut self, link: u16) -> Result<(), NetworkRefusal>
        ensures answer { result ≡ told (λ _. tt) (N.Network.meaning self.old.below) link }
        ensures below { self.new.below ≡ self.old.below }
        ensures marks { (k : ℕ) → marks self.new k ≡ (if is_ok result then (if nat_eq k link then false else marks self.old k) else marks self.old k) }
        ensures refused { is_err result ≡ true → self.new ≡ self.old }
    {
        self.mark(link, false)
    }

    // Marks a link as closed or as open.
    fn mark(&mut self, link: u16, closed: bool) -> Result<(), NetworkRefusal>
        ensures answer { result ≡ told (λ _. tt) (N.Network.meaning self.old.below) link }
        ensures below { self.new.below ≡ self.old.below }
        ensures marks { (k : ℕ) → marks self.new k ≡ (if is_ok result then (if nat_eq k link then closed else marks self.old k) else marks self.old k) }
        ensures refused { is_err result ≡ true → self.new ≡ self.old }
    {
        if link >= self.below.links() {
            return Err(NetworkRefusal::LinkTooHigh);
        }
        self.change.closed[usize::from(link)] = closed;
        Ok(())
    }
}

/// Theorem: a closing layer means the network below with the closed links dark.
pub fn closing_shows<N: Network>(layer: &Closing<N>)
    ensures { ⟦<Closing<N> as Network>⟧.meaning layer.now ≡ closed_over (marks layer.now) (N.Network.meaning layer.now.below) }
{}
