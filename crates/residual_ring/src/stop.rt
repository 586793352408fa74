//! After which step a run ends.

ghost use Rattle.std.specs.Prelude.{◌≡◌, ◌↔◌, ℕ, ◌≤◌, pos, IsTrue};
ghost use Rattle.stencil_def.specs.declared.rule.Rule.{Rule};
ghost use Rattle.stencil_def.specs.Plane.{Plane};
ghost use Rattle.cell_lanes.specs.Change.{IsStop, step_change};
ghost use Rattle.residual_ring.specs.Stop.{GoesOnTo};

/// Whether a run of so many steps ends after those made, which are at least one, where the last of them made this
/// change and no step before it was small enough to end the run.
pub fn is_stop(made: u32, steps: u32, change: i64, until: i64) -> bool
    requires some { 1 ≤ made }
    requires within { made ≤ steps }
    ensures stop { (g : Plane) (rule : Rule) → GoesOnTo g rule until made →
        change ≡ pos (step_change g rule made) → IsTrue result ↔ IsStop g rule steps until made }
{
    made == steps || change <= until
}
