//! What a run considers: the trait that the two runs of a planning differ in.
ghost use Rattle.std.specs.Prelude.{◌≡◌, ℕ, ◌<◌, false, List, ◌∷◌};
ghost use Rattle.least_pairs.specs.Runs.{Job, has};
ghost use Rattle.runs.specs.Offers.{offers};

use costs::Cost;

/// What a run considers: `job` is what the run does, and `ready` says of the sites settled so far, the newest first, that the stage knows them.
pub trait Stage<C: Cost> {
    ghost job: { Self → Job C };

    ghost ready: { Self → List ℕ → Type 0 };

    /// A site is settled.
    fn strike(&mut self, site: u16)
        requires within { site < (job self.old).sites }
        requires stands { (S : List ℕ) × (ready self.old S × (has site S ≡ false)) }
        ensures same { job self.new ≡ job self.old }
        ensures stands { (S : List ℕ) → ready self.old S → has site S ≡ false → ready self.new (site ∷ S) };

    /// Where a link leads and what it adds, if the site settled last considers it.
    fn offer(&self, site: u16, link: u16) -> Option<(u16, C)>
        requires within { link < (job self.now).links }
        requires stands { (S : List ℕ) × ready self.now (site ∷ S) }
        ensures { (S : List ℕ) → ready self.now (site ∷ S) → result ≡ offers (job self.now) site S link };
}
