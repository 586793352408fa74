//! What holds of every script.

ghost use Rattle.script_run.specs.Laws.{PairsAreMatched};

/// What holds of every script, for proofs; the body is empty. After any of its calls the pairs are those of the world
/// that `init_match` matches, in its order, and a request is in the pair that its slot is in.
pub fn pair_laws()
    ensures pairs { PairsAreMatched }
{}
