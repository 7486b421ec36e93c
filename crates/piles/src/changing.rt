//! What is set in a pile: links closed and reopened, amounts on links.
ghost use Rattle.std.specs.Prelude.{◌≡◌, ℕ, true, false, is_ok, is_err, if◌then◌else◌, nat_eq};
ghost use Rattle.networks.specs.Telling.{told};
ghost use Rattle.layers.specs.Shown.{marks, amounts};
ghost use Rattle.layers.specs.Refusing.{surcharge_answer};

use crate::pile::Pile;
use layers::refusing::SurchargeRefusal;
use networks::model::NetworkRefusal;
use networks::network::Network;

/// Closes a link; a closed one stays closed.
pub fn close<N: Network>(pile: &mut Pile<N>, link: u16) -> Result<(), NetworkRefusal>
    ensures answer { result ≡ told (λ _. tt) (N.Network.meaning pile.old.below.below) link }
    ensures below { pile.new.below ≡ pile.old.below }
    ensures marks { (k : ℕ) → marks pile.new k ≡ (if is_ok result then (if nat_eq k link then true else marks pile.old k) else marks pile.old k) }
    ensures refused { is_err result ≡ true → pile.new ≡ pile.old }
{
    pile.close(link)
}

/// Reopens a link; an open one stays open.
pub fn reopen<N: Network>(pile: &mut Pile<N>, link: u16) -> Result<(), NetworkRefusal>
    ensures answer { result ≡ told (λ _. tt) (N.Network.meaning pile.old.below.below) link }
    ensures below { pile.new.below ≡ pile.old.below }
    ensures marks { (k : ℕ) → marks pile.new k ≡ (if is_ok result then (if nat_eq k link then false else marks pile.old k) else marks pile.old k) }
    ensures refused { is_err result ≡ true → pile.new ≡ pile.old }
{
    pile.reopen(link)
}

/// Sets the amount on a link, in the place of the one before.
pub fn surcharge<N: Network>(
    pile: &mut Pile<N>,
    link: u16,
    amount: u32,
) -> Result<(), SurchargeRefusal>
    ensures answer { result ≡ surcharge_answer (N.Network.meaning pile.old.below.below) link amount }
    ensures below { pile.new.below.below ≡ pile.old.below.below }
    ensures closings { pile.new.change ≡ pile.old.change }
    ensures amounts { (k : ℕ) → amounts pile.new.below k ≡ (if is_ok result then (if nat_eq k link then amount else amounts pile.old.below k) else amounts pile.old.below k) }
    ensures refused { is_err result ≡ true → pile.new ≡ pile.old }
{
    pile.below.surcharge(link, amount)
}
