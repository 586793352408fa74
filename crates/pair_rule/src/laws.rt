//! What holds of every table with the rule.

ghost use Rattle.pair_rule.specs.Laws.{StepsLeadOn, ViewsAreConsistent};

use crate::content::Content;

/// What holds of every table with the rule of a running pair, whatever the content of its marks is and in whatever
/// order its seats step, for proofs; the body is empty.
/// The views of its seats are consistent [`views`]: no send partition is marked twice in a round, in one view or two;
/// each byte that the receive side took is that of a mark of the take's round, whichever seat has it; and a mark and a
/// take of one round have one byte at each place of the message that both have.
/// Each step that a seat may make by its own view leads to a table with the rule, which shows the core after the step;
/// no other seat's view is changed, and of the slots only those that the step moves are [`steps`]. Beside its view's
/// leave a claim that wins asks of its bytes that they may be marked, a lay of the buffers that come home that they are
/// filled with the mark's bytes, and a return of its buffers that they have the round and their cells' lengths; every
/// other step, a take too, asks nothing.
pub fn rule_laws<C: Content>()
    ensures views { ViewsAreConsistent C.may }
    ensures steps { StepsLeadOn C.may }
{}
