//! What the answers of a pair say of its rounds.

ghost use Rattle.script_pair.specs.Laws.{TakesShowMarks};

/// A law of the answers; it does nothing. What a take that is accepted shows are the bytes that the marks of the
/// receiver's round gave at the places of the partition.
#[tactic(auto, using(crate::proofs::TakeLaws::takes_show_marks))]
pub fn answer_laws()
    ensures { TakesShowMarks }
{}
