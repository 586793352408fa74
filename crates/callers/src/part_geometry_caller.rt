#![tactic(auto)]

ghost use Rattle.std.specs.Prelude.{◌≡◌, ◌-◌, ◌<◌};
ghost use Rattle.part_geometry.specs.Cells.{start, end};
ghost use Rattle.part_geometry.specs.Pieces.{pieces, first_cell, last_cell};

use part_geometry::Geometry;

/// The bytes of piece `i`.
pub fn piece_bytes(geometry: &Geometry, i: u32) -> u32
    requires { i < pieces geometry.now }
    ensures { result ≡ end geometry.now (last_cell geometry.now i) - start geometry.now (first_cell geometry.now i) }
{
    let (first, last) = geometry.piece(i);
    let (start, _) = geometry.cell(first);
    let (_, end) = geometry.cell(last);
    end - start
}

/// The bytes of the longest piece.
pub fn longest_piece(geometry: &Geometry) -> u32 {
    (0..geometry.pieces())
        .map(|i| piece_bytes(geometry, i))
        .max()
        .unwrap_or(0)
}
