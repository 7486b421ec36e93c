//! What is proved of the format.
ghost use Rattle.certificates.specs.Theorems.{SingleValued, Total, ToldApart};

/// The same bytes never mean two things.
#[tactic(auto, using(crate::proofs::Outcomes::single_valued))]
pub fn single_valued_stands()
    ensures { SingleValued }
{}

/// All bytes mean something.
#[tactic(auto, using(crate::proofs::Outcomes::total))]
pub fn total_stands()
    ensures { Total }
{}

/// Different fields have different bytes.
#[tactic(auto, using(crate::proofs::Outcomes::told_apart))]
pub fn told_apart_stands()
    ensures { ToldApart }
{}
