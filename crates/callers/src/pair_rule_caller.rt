#![tactic(auto)]

ghost use Rattle.std.specs.Prelude.{◌≡◌, ℕ, ◌≤◌};
ghost use Rattle.gate_word.specs.Words.{round_in};
ghost use Rattle.pair_core.specs.Names.{Claim, Release};
ghost use Rattle.pair_rule.specs.First.{marker, with_marker, with_marker_back};
ghost use Rattle.pair_rule.specs.Views.{saw, seen};
ghost use Rattle.pair_rule.specs.Told.{Learns};
ghost use Rattle.pair_rule.specs.Seats.{IsOf};

use gate_word::round_of;
use pair_rule::{Content, Pair, SendSeat};

/// The last round that the receive side is done with, as a look tells now: no less than the send side had seen.
pub fn released<C: Content>(pair: &Pair<C>, seat: &mut SendSeat<C>) -> u32
    requires { IsOf seat.old.table seat.old.view pair.now }
    ensures step { (word : ℕ) × (seat.new ≡ record seat.old { view = saw Release word seat.old.view })
        × (result ≡ round_in word) }
    ensures grows { round_in (seen seat.old.view Release) ≤ result }
{
    let word = pair.load_release(seat);
    round_of(word)
}

/// A marker is split off the send side, and joined again before it marks. Answers claim word 0, as the side finds it
/// then.
pub fn lend_a_marker<C: Content>(pair: &Pair<C>, send: &mut SendSeat<C>) -> u64
    requires { IsOf send.old.table send.old.view pair.now }
    ensures step { let d = with_marker_back (with_marker send.old.view) (marker send.old.view) in
        (send.new ≡ record send.old { view = saw (Claim 0) result d }) × Learns d (Claim 0) result }
{
    let marker = pair.split_marker(send);
    pair.join_marker(send, marker)
}
