#![tactic(auto)]

ghost use Rattle.std.specs.Prelude.{◌≡◌, ◌+◌, ◌-◌, ◌<◌};
ghost use Rattle.part_tables.specs.Parts.{first_sent};

use part_tables::Tables;

/// How many cells send partition `p` has.
pub fn sent_cells(tables: &Tables, p: usize) -> usize
    requires { p < tables.now.send_parts }
    ensures { result ≡ first_sent tables.now (p + 1) - first_sent tables.now p }
{
    let (first, after) = tables.sent(p);
    after - first
}
