//! What holds of all geometries, for proofs.

ghost use Rattle.part_geometry.specs.Pieces.{AreOver};

/// What holds of all geometries, for proofs; the body is empty. A piece is over a receive partition exactly where
/// it shares a cell with it.
#[tactic(auto, using(crate::proofs::Overs::overs))]
pub fn geometry_laws()
    ensures over { AreOver }
{}
