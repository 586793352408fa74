//! The claim of a partition.

ghost use Rattle.std.specs.Prelude.{◌≡◌, ◌+◌, ◌-◌, ◌/◌, ◌<◌, ◌≤◌, MatchResult};
ghost use Rattle.gate_word.specs.Order.{IsLater};
ghost use Rattle.pair_core.specs.Names.{Claim};
ghost use Rattle.pair_rule.specs.Rule.{MayMark};
ghost use Rattle.pair_rule.specs.Seats.{IsOf};
ghost use Rattle.pair_rule.specs.Views.{seen};
ghost use Rattle.part_send.specs.Ends.{IsFree, IsTold};
ghost use Rattle.part_send.specs.Looking.{saw_often};
ghost use Rattle.part_send.specs.Marking.{IsRight, Lets, Refuses, Claims};

use crate::answers::ReadyRefusal;
use crate::steps::Steps;
use crate::told::Told;
use gate_word::{bits_of, is_shut, round_of};
use pair_rule::{Content, MarkSeat, Pair};
use std::sync::ledger::Ledger;

/// Why a claim word doesn't let a partition be claimed in a round.
pub(crate) fn refuse_word(shown: u64, round: u32, partition: u32) -> Result<(), ReadyRefusal>
    ensures { MatchResult result (λ _. Lets shown round partition) (λ cause. Refuses shown round partition cause) }
{
    if round_of(shown) != round || is_shut(shown) {
        return Err(ReadyRefusal::NotActive { shown });
    }
    if (bits_of(shown) >> (partition % 32)) & 1 == 1 {
        return Err(ReadyRefusal::AlreadyMarked { shown });
    }
    Ok(())
}

/// Begins a claim of a partition in a round: its claim word, as it was seen last, is in `told` afterwards. Where the
/// word that was kept is this one and lets the partition be claimed, no step is made, and else one load. Each step on
/// the word is counted.
fn begin<C: Content, L: Ledger>(
    seat: &mut MarkSeat<C>,
    told: &mut Told,
    pair: &Pair<C>,
    round: u32,
    partition: u32,
    steps: &mut Steps<L>,
)
    requires pair { IsOf seat.old.table seat.old.view pair.now }
    requires free { IsFree seat.old }
    requires told { IsTold seat.old.view told.old.number told.old.word }
    requires part { partition < seat.old.view.geometry.send_parts }
    ensures number { told.new.number ≡ partition / 32 }
    ensures seat { seat.new ≡ record seat.old {
      view = saw_often (steps.new - steps.old) (Claim (partition / 32)) told.new.word seat.old.view;
    } }
    ensures later { IsLater (seen seat.old.view (Claim (partition / 32))) told.new.word }
    ensures steps { (steps.old ≤ steps.new) × (steps.new ≤ steps.old + 1) }
    ensures lets { steps.new ≡ steps.old → Lets told.new.word round partition }
{
    let number = partition / 32;
    if told.number == number && refuse_word(told.word, round, partition).is_ok() {
        return;
    }
    let word = pair.load_claim(seat, number);
    steps.tick();
    *told = Told { number, word };
}

/// Claims a partition in a round: exchanges its claim word, as it was seen last, until the claim is won, or the word
/// says that it can't be. It begins with a load of the word, or with the exchange at once where the word that was kept
/// is this one and lets the partition be claimed. Each exchange that is lost shows a partition more of the word's other
/// 31, so there are 32 at most. Each step on the word is counted, and what the last one left of the word is kept.
pub(crate) fn claim<C: Content, L: Ledger>(
    seat: &mut MarkSeat<C>,
    told: &mut Told,
    pair: &Pair<C>,
    round: u32,
    partition: u32,
    bytes: &[u8],
    steps: &mut Steps<L>,
) -> Result<(), ReadyRefusal>
    requires pair { IsOf seat.old.table seat.old.view pair.now }
    requires free { IsFree seat.old }
    requires told { IsTold seat.old.view told.old.number told.old.word }
    requires right { IsRight seat.old.view.geometry partition bytes.now }
    requires bytes { MayMark C.may pair.now.key round partition bytes.now }
    ensures answer { Claims seat.old seat.new round partition bytes.now (steps.new - steps.old) result }
    ensures steps { (steps.old + 1 ≤ steps.new) × (steps.new ≤ steps.old + 33) }
    ensures told { IsTold seat.new.view told.new.number told.new.word }
{
    begin(seat, told, pair, round, partition, steps);
    for _ in 0..32u32 {
        refuse_word(told.word, round, partition)?;
        let found = pair.try_claim(seat, told.word, partition, bytes);
        steps.tick();
        if found == told.word {
            told.word = found | (1 << (partition % 32));
            return Ok(());
        }
        told.word = found;
    }
    refuse_word(told.word, round, partition)?;
    unreachable!()
}
