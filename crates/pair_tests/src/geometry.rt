//! Geometries whose cells and pieces were counted by hand.

use part_geometry::{Geometry, GeometryFault, all_cells};

/// The geometry of six numbers.
fn geometry_of(n: [u32; 6]) -> Result<Geometry, GeometryFault> {
    Geometry::new(n[0], n[1], n[2], n[3], n[4], n[5])
}

#[test]
fn new_names_the_first_fault(rt: HostRuntime) {
    let mismatch = GeometryFault::SizeMismatch {
        send_total: 12,
        recv_total: 10,
    };
    let cases = [
        ([0, 4, 2, 6, 1, 1], Some(GeometryFault::BadParts)),
        ([1025, 1, 1025, 1, 1, 1], Some(GeometryFault::BadParts)),
        ([3, 0, 2, 6, 1, 1], Some(GeometryFault::BadBytes)),
        (
            [1, 1_048_577, 1, 1_048_577, 1, 1],
            Some(GeometryFault::BadBytes),
        ),
        (
            [32, 1_048_576, 32, 1_048_576, 1, 1],
            Some(GeometryFault::TooLong),
        ),
        ([3, 4, 2, 5, 1, 1], Some(mismatch)),
        ([3, 4, 2, 6, 0, 1], Some(GeometryFault::BadGrain)),
        ([3, 4, 2, 6, 16_777_217, 1], Some(GeometryFault::BadGrain)),
        ([3, 4, 2, 6, 1, 0], Some(GeometryFault::BadDepth)),
        ([3, 4, 2, 6, 1, 5], Some(GeometryFault::BadDepth)),
        ([16, 1_048_576, 16, 1_048_576, 16_777_216, 4], None),
    ];
    for (n, fault) in cases {
        assert_eq!(rt; geometry_of(n).err(), fault);
    }
}

#[test]
fn cells_lie_between_the_bounds_of_both_sides(rt: HostRuntime) {
    let geometry = geometry_of([3, 4, 2, 6, 1, 1]).expect(&rt, "within the limits");
    let wanted = [
        (0, 4, 0, 0, 0),
        (4, 6, 1, 0, 1),
        (6, 8, 1, 1, 2),
        (8, 12, 2, 1, 3),
    ];
    let cells = all_cells(rt.alloc(), geometry).expect(&rt, "enough memory");
    for (c, cell) in cells.iter().enumerate() {
        let got = (cell.start, cell.end, cell.send, cell.recv, cell.piece);
        assert_eq!(rt; Some(&got), wanted.get(c), "cell {c}");
    }
    assert_eq!(rt; (cells.len(), geometry.cells()), (4, 4));
}

#[test]
fn some_cells_of_longer_messages(rt: HostRuntime) {
    let cases = [
        ([1, 5, 1, 5, 1, 1], 1, 0, (0, 5), 0, 0),
        ([32, 31, 31, 32, 1, 1], 62, 0, (0, 31), 0, 0),
        ([32, 31, 31, 32, 1, 1], 62, 1, (31, 32), 1, 0),
        ([32, 31, 31, 32, 1, 1], 62, 60, (960, 961), 30, 30),
        ([32, 31, 31, 32, 1, 1], 62, 61, (961, 992), 31, 30),
        ([33, 2, 2, 33, 1, 1], 34, 16, (32, 33), 16, 0),
        ([1024, 1023, 1023, 1024, 1, 4], 2046, 0, (0, 1023), 0, 0),
        (
            [1024, 1023, 1023, 1024, 1, 4],
            2046,
            2045,
            (1_046_529, 1_047_552),
            1023,
            1022,
        ),
    ];
    for (n, count, c, cell, send, recv) in cases {
        let geometry = geometry_of(n).expect(&rt, "within the limits");
        let got = if c < geometry.cells() {
            (
                geometry.cells(),
                geometry.cell(c),
                geometry.send_of(c),
                geometry.recv_of(c),
            )
        } else {
            (geometry.cells(), (0, 0), 0, 0)
        };
        assert_eq!(rt; got, (count, cell, send, recv));
    }
}

#[test]
fn pieces_close_at_the_grain_or_at_32_partitions(rt: HostRuntime) {
    let cases = [
        ([3, 4, 2, 6, 1, 1], 4, 0, ((0, 0), 0, 1)),
        ([3, 4, 2, 6, 1, 1], 4, 1, ((1, 1), 1, 1)),
        ([3, 4, 2, 6, 1, 1], 4, 2, ((2, 2), 1, 1)),
        ([3, 4, 2, 6, 1, 1], 4, 3, ((3, 3), 2, 1)),
        ([3, 4, 2, 6, 6, 1], 2, 0, ((0, 1), 0, 3)),
        ([3, 4, 2, 6, 6, 1], 2, 1, ((2, 3), 1, 3)),
        ([64, 1, 1, 64, 64, 1], 2, 0, ((0, 31), 0, 4_294_967_295)),
        ([64, 1, 1, 64, 64, 1], 2, 1, ((32, 63), 32, 4_294_967_295)),
    ];
    for (n, count, i, piece) in cases {
        let geometry = geometry_of(n).expect(&rt, "within the limits");
        let got = if i < geometry.pieces() {
            (geometry.piece(i), geometry.first_part(i), geometry.need(i))
        } else {
            ((0, 0), 0, 0)
        };
        assert_eq!(rt; (geometry.pieces(), got), (count, piece));
    }
}
