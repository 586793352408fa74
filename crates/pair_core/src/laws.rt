//! What holds of every list of moves.

ghost use Rattle.part_geometry.specs.Shape.{Shape, IsShape};
ghost use Rattle.pair_core.specs.Facts.{StateFacts};
ghost use Rattle.pair_core.specs.Laws.{KeepsOrderAlways, StaysSound, TakesItsRound};
ghost use Rattle.pair_core.specs.Replaying.{IsOneMove, LeadToOne};

/// What holds of every pair whose threads take the atomic steps of the core, under every interleaving of them, for
/// proofs; the body is empty, and `A` is what a layer above keeps with a mark. The first state is sound, each allowed
/// move keeps soundness, and so every list of moves has it [`sound`]. The history of every list of moves keeps its
/// order: each piece of a round goes out at most once, right after the last of its partitions was laid into it, and so
/// on, a sentence each [`order`]. The slots that a take takes have the round of the take [`slots`]. What else a layer
/// above may rest on in a sound state, a sentence each [`facts`].
pub fn core_laws<A>()
    ensures sound { (g : Shape) → IsShape g → StaysSound A g }
    ensures order { (g : Shape) → IsShape g → KeepsOrderAlways A g }
    ensures slots { (g : Shape) → IsShape g → TakesItsRound A g }
    ensures facts { (g : Shape) → IsShape g → StateFacts A g }
{}

/// What holds of every event and every list of events, for proofs; the body is empty. In a state an event is one move
/// at most that is allowed [`one`]. So a list of events leads to one state and one history at most [`same`].
#[tactic(auto, using(crate::proofs::StateOne::one_move, crate::proofs::StateOne::lead_to_one))]
pub fn event_laws()
    ensures one { (g : Shape) → IsOneMove g }
    ensures same { (g : Shape) → LeadToOne g }
{}
