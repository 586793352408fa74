#![tactic(auto)]

ghost use Rattle.std.specs.Prelude.{◌≡◌};
ghost use Rattle.std.specs.Result.{result_ok};
ghost use Rattle.plain_pair.specs.Moves.{take_answer};
ghost use Rattle.plain_pair.specs.StandsFor.{StandsFor};

use plain_pair::{PlainArrival, PlainPair};

/// What has arrived of receive partition `q`, unless it was taken before.
pub fn arrived(pair: &mut PlainPair, q: u32) -> Option<PlainArrival>
    ensures { (r : _) → StandsFor pair.old r → result ≡ result_ok (take_answer pair.old.shape r q) }
{
    pair.take(q).ok()
}
