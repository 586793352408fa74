//! Running pairs of the greatest sizes are made and closed: that this succeeds with ample memory is said by no clause.

use pair_rule::{AnyBytes, Pair};
use part_geometry::{Geometry, MAX_GRAIN, MAX_PART_BYTES};

#[test]
fn the_greatest_pairs_are_made_and_closed(rt: HostRuntime) {
    for n in [
        [1024, 1023, 1023, 1024, 1, 4],
        [1024, 1, 1024, 1, 1, 4],
        [16, MAX_PART_BYTES, 16, MAX_PART_BYTES, MAX_GRAIN, 4],
        [1, 1, 1, 1, 1, 1],
    ] {
        let geometry = Geometry::new(n[0], n[1], n[2], n[3], n[4], n[5]).expect(
            &rt,
            "within the limits",
        );
        let (pair, send, recv) = Pair::<AnyBytes>::create(rt.alloc(), geometry, ()).expect(
            &rt,
            "enough memory",
        );
        let closed = pair.close(send, recv);
        assert_eq!(rt;
            (closed.sent(), closed.received(), closed.pieces_out()),
            (0, 0, 0)
        );
    }
}
