#![tactic(auto)]

ghost use Rattle.std.specs.Prelude.{◌≡◌, true, IsTrue};
ghost use Rattle.pair_rule.specs.Seats.{IsOf};
ghost use Rattle.part_send.specs.Ends.{is_active};
ghost use Rattle.part_send.specs.Testing.{IsShut};

use pair_rule::{Content, Pair};
use part_send::{SendEnd, SendTest};

/// Whether the round of an active end is over now, as a test tells.
pub fn is_over<C: Content>(end: &mut SendEnd<C>, pair: &Pair<C>) -> bool
    requires { IsOf end.old.table end.old.view pair.now }
    ensures { IsTrue result → (is_active end.old.view ≡ true) × IsShut end.old.view end.new.view }
{
    match end.test(pair) {
        SendTest::Done => true,
        SendTest::Idle => false,
        SendTest::Unmarked {
            partition: _,
            shown: _,
        } => false,
        SendTest::Unsent { piece: _, shown: _ } => false,
        SendTest::Unreleased { seen: _ } => false,
    }
}
