#![tactic(auto)]

ghost use Rattle.std.specs.Prelude.{◌≡◌, ◌*◌};
ghost use Rattle.halo_message.specs.declared.TheConstants.{ELEMENT_BYTES};
ghost use Rattle.halo_plan.specs.Plan.{elements};

use halo_plan::HaloPlan;

/// How many bytes a message of the plan has.
pub fn message_bytes(plan: &HaloPlan) -> u32
    ensures { result ≡ elements plan.now * ELEMENT_BYTES }
{
    plan.geometry().total()
}
