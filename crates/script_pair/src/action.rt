//! What is done with a request of a matched pair, and the text that it answers.

ghost use Rattle.std.specs.Prelude.{◌≡◌, true};
ghost use Rattle.part_api.specs.States.{is_in_use};
ghost use Rattle.script_pair.specs.Answers.{is_wrong_side, own_answer, after_own, test_text, tested, answer, after};
ghost use Rattle.script_pair.specs.Held.{Tells, request_of};

use crate::held::MatchedPair;
use crate::texts;
use part_api::Side;
use script_text::Action;
use std::alloc::{AllocError, Global};

/// Whether an action is of the other side than this one: a mark of the receive side, or a look, a take or a return of
/// the send side.
pub fn is_wrong_side(side: Side, action: &Action) -> bool
    ensures { result ≡ is_wrong_side side action.now }
{
    match action {
        Action::Ready { .. } | Action::ReadyRange { .. } | Action::ReadyList { .. } => {
            matches!(side, Side::RecvSide)
        }
        Action::Arrived { .. } | Action::Take { .. } | Action::Back { .. } => {
            matches!(side, Side::SendSide)
        }
        Action::Start | Action::Test | Action::Free => false,
    }
}

impl MatchedPair {
    /// Tests the request of a side.
    fn test(&mut self, alloc: Global, side: Side) -> Result<String, AllocError>
        requires { is_in_use (request_of side self.old).state ≡ true }
        ensures shape { self.new.pair.shape ≡ self.old.pair.shape }
        ensures tells { Tells self.old self.new result (test_text self.old.pair.shape side)
            (tested self.old.pair.shape side) }
    {
        match side {
            Side::SendSide => {
                let answer = self.test_send();
                texts::send_test(alloc, answer)
            }
            Side::RecvSide => {
                let answer = self.test_recv();
                texts::recv_test(alloc, answer)
            }
        }
    }

    /// Does what an action of this side says.
    fn act(&mut self, alloc: Global, side: Side, action: &Action) -> Result<String, AllocError>
        requires { is_in_use (request_of side self.old).state ≡ true }
        ensures shape { self.new.pair.shape ≡ self.old.pair.shape }
        ensures tells { let g = self.old.pair.shape in
            Tells self.old self.new result (λ d. own_answer g side d action.now) (λ d. after_own g side d action.now) }
    {
        match action {
            Action::Start => texts::start(alloc, self.start(side)),
            Action::Ready {
                round,
                partition,
                bytes,
            } => {
                let marked = self.ready(*round, *partition, bytes.as_slice());
                texts::ready(alloc, marked)
            }
            Action::ReadyRange {
                round,
                low,
                high,
                bytes,
            } => {
                let marks = self.ready_range(*round, *low, *high, bytes.as_slice());
                texts::marks(alloc, marks)
            }
            Action::ReadyList {
                round,
                parts,
                bytes,
            } => {
                let marks = self.ready_list(*round, parts.as_slice(), bytes.as_slice());
                texts::marks(alloc, marks)
            }
            Action::Arrived { q } => texts::arrived(alloc, self.arrived(*q)),
            Action::Take { q } => self.take(alloc, *q),
            Action::Back { q } => texts::back(alloc, self.back(*q)),
            Action::Test => self.test(alloc, side),
            Action::Free => texts::free(alloc, self.free(side)),
        }
    }

    /// What an action on the request of a side answers, as its line of a script. A freed request refuses every
    /// action, and then one of the other side is refused; nothing changes then.
    pub fn answer(
        &mut self,
        alloc: Global,
        side: Side,
        action: &Action,
    ) -> Result<String, AllocError>
        ensures shape { self.new.pair.shape ≡ self.old.pair.shape }
        ensures tells { let g = self.old.pair.shape in
            Tells self.old self.new result (λ d. answer g side d action.now) (λ d. after g side d action.now) }
    {
        if self.is_freed(side) {
            return String::from_str(alloc, "refused Freed");
        }
        if is_wrong_side(side, action) {
            return String::from_str(alloc, "refused WrongSide");
        }
        self.act(alloc, side, action)
    }
}
