//! What holds of all lists of calls.

ghost use Rattle.init_match.specs.Matching.{AreThePairs, IsThePartner};
ghost use Rattle.init_match.specs.Merges.{DoMergesAgree};

/// What holds of all lists of accepted initialisations, for proofs; the body is empty. The pairs of a world are those
/// of the k-th send and the k-th receive of one key, all of them, in the order of their later calls; the partner of a
/// slot is the other slot of its pair. And where one merge of the ranks' call lists is accepted, each merge is, with
/// the same calls paired.
#[tactic(auto, using(crate::proofs::PairLaws::the_pairs, crate::proofs::MergeLaws::merges_agree))]
pub fn match_laws()
    ensures pairs { AreThePairs }
    ensures partner { IsThePartner }
    ensures merges { DoMergesAgree }
{}
