//! Laws on the definitions, for proofs of miners. Each is a function that does nothing: its
//! contract is the law.
ghost use Rattle.mine_apriori.specs.Candidates.{CandidatesAreExact, CandidatesAreInReportOrder, CandidatesAreOneLarger};
ghost use Rattle.mine_apriori.specs.Work.{CandidatesBySets};

/// The candidates of sets of one size are exactly the sets of one more item all of whose subsets
/// of that size are in the list.
pub fn candidates_are_exact()
    ensures { CandidatesAreExact }
{}

/// The candidates of any sets are in report order.
#[tactic(auto, using(crate::proofs::LawLemmas::candidates_are_in_report_order))]
pub fn candidates_are_in_report_order()
    ensures { CandidatesAreInReportOrder }
{}

/// The candidates of sets of one size have one item more.
pub fn candidates_are_one_larger()
    ensures { CandidatesAreOneLarger }
{}

/// Baskets with the same frequent sets have the same candidates.
#[tactic(auto, using(crate::proofs::LawLemmas::candidates_by_sets))]
pub fn candidates_by_sets()
    ensures { CandidatesBySets }
{}
