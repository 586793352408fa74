//! What holds of every text of events.

ghost use Rattle.event_check.specs.Output.{IsOneOutput};

/// A text has one output at most, for proofs; it does nothing when it runs.
pub fn check_laws()
    ensures { IsOneOutput }
{
    pair_core::event_laws();
}
