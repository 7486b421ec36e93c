//! What is proved of the certificates of pairs.
ghost use Rattle.pair_certificates.specs.Pairs.{PairsAreWithin, AnswersAreWithin};

use costs::Cost;

/// The fields of a certificate are within their limits for every circuit's number, every two different sites of a sound network, and every two short routes between them that share no link.
pub fn pairs_are_within<C: Cost>()
    ensures { PairsAreWithin C.Cost.ops }
{}

/// So a pair that a planning answers can always be certified.
pub fn answers_are_within<C: Cost>()
    ensures { AnswersAreWithin C.Cost.ops }
{}
