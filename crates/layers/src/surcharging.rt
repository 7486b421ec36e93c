//! What the surcharge layer does beyond every layer: amounts are set.
ghost use Rattle.std.specs.Prelude.{◌≡◌, ℕ, ◌+◌, min, true, false, is_ok, is_err, if◌then◌else◌, nat_eq};
ghost use Rattle.std.proofs.Common.{rules};
ghost use Rattle.layers.specs.Shown.{amount_on, amounts, charging, charged_over};
ghost use Rattle.layers.specs.Refusing.{surcharge_answer};
ghost use Rattle.layers.specs.SurchargeLaws.{charged_shows, charged_more, charged_most, charged_none};

use crate::change::Change;
use crate::refusing::SurchargeRefusal;
use crate::surcharged::{Surcharge, Surcharges};
use networks::limits::MOST_METRES;
use networks::network::Network;

// The most that an amount may be: as much as the metres of a link.
const MOST_AMOUNT: u32 = MOST_METRES;

impl Change for Surcharges {
    ghost shown = { λ s. charging (amount_on s) };

    ghost dark = { λ _ _. false };

    ghost raised = { λ s k metres. min (metres + amount_on s k) 1000000 };

    ghost nothing = { λ s. (k : ℕ) → amount_on s k ≡ 0 };

    ghost shows = { λ s k l. charged_shows (amount_on s) k l };

    ghost more = { λ s k m. charged_more (amount_on s) k m };

    ghost most = { λ s k m h. charged_most (amount_on s) k m };

    ghost none_dark = { Prim.search rules };

    ghost none_raised = { λ s nil k m. charged_none (amount_on s) nil k m };

    fn none() -> Surcharges {
        Surcharges { amounts: [0; 2048] }
    }

    fn is_dark(&self, _link: u16) -> bool {
        false
    }

    fn metres(&self, link: u16, below: u32) -> u32 {
        let amount = self.amounts.get(usize::from(link)).copied().unwrap_or(0);
        below.saturating_add(amount).min(MOST_METRES)
    }
}

impl<N: Network> Surcharge<N> {
    /// Sets the amount on a link, in the place of the one before.
    pub fn surcharge(&mut self, link: u16, amount: u32) -> Result<(), SurchargeRefusal>
        ensures answer { result ≡ surcharge_answer (N.Network.meaning self.old.below) link amount }
        ensures below { self.new.below ≡ self.old.below }
        ensures amounts { (k : ℕ) → amounts self.new k ≡ (if is_ok result then (if nat_eq k link then amount else amounts self.old k) else amounts self.old k) }
        ensures refused { is_err result ≡ true → self.new ≡ self.old }
    {
        if link >= self.below.links() {
            return Err(SurchargeRefusal::LinkTooHigh);
        }
        if amount > MOST_AMOUNT {
            return Err(SurchargeRefusal::OutsideLimits);
        }
        self.change.amounts[usize::from(link)] = amount;
        Ok(())
    }
}

/// Theorem: a surcharge layer means the network below with each link's amount added to its metres.
pub fn surcharge_shows<N: Network>(layer: &Surcharge<N>)
    ensures { ⟦<Surcharge<N> as Network>⟧.meaning layer.now ≡ charged_over (amounts layer.now) (N.Network.meaning layer.now.below) }
{}
