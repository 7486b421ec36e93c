//! Least pairs: what routes and pairs of routes are, what the two runs of a planning give, and that no other pair costs less. Each theorem stands on the contract of a function, for every sound network and every cost kind.
#![tactic(auto)]

ghost use Rattle.least_pairs.specs.Theorems.{AnswersAreTrue, AnswersComeExactlyWhenTrue, RoutesVisitNoSiteTwice, AnswersAreRight, SurveysAreRight, SumsAreExact, RunsKeepTheirLaws};

use costs::Cost;

/// An answered pair is two routes over usable links that share no link; no two such routes cost less together; the total is their cost. Where no route or one link is answered, it is so.
pub fn answers_are_true<C: Cost>()
    ensures { AnswersAreTrue C.Cost.ops }
{}

/// No route is answered wherever none leads there; a link wherever there are routes and all share one; a pair wherever two routes share no link.
pub fn answers_come_exactly_when_true<C: Cost>()
    ensures { AnswersComeExactlyWhenTrue C.Cost.ops }
{}

/// No route of an answered pair visits a site twice; each has at least one link and fewer than there are sites.
pub fn routes_visit_no_site_twice<C: Cost>()
    ensures { RoutesVisitNoSiteTwice C.Cost.ops }
{}

/// The three together, in one definition.
pub fn answers_are_right<C: Cost>()
    ensures { AnswersAreRight C.Cost.ops }
{}

/// Every entry of a survey is right: root, the least total of two routes that share no link, no route, or the first link that all routes share.
pub fn surveys_are_right<C: Cost>()
    ensures { SurveysAreRight C.Cost.ops }
{}

/// Every sum that a planning works out is exact: no value is larger than 130,815,000,000.
pub fn sums_are_exact<C: Cost>()
    ensures { SumsAreExact C.Cost.ops }
{}

/// Both runs keep the laws of a finished run, ties included, and these laws determine what the runs leave.
pub fn runs_keep_their_laws<C: Cost>()
    ensures { RunsKeepTheirLaws C.Cost.ops }
{}
