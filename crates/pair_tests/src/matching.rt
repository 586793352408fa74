//! Initialisations in mixed order, each fault once, and a world that is full.

use init_match::{InitFault, World, WorldFault};

#[test]
fn pairs_stand_in_the_order_of_their_later_calls(rt: HostRuntime) {
    let mut world = World::new(rt.alloc(), 2, 1, 1).expect(&rt, "within the limits");
    let calls = [
        (false, 0, 2, 1),
        (true, 0, 1, 2),
        (true, 1, 1, 2),
        (true, 0, 1, 4),
        (false, 0, 4, 1),
    ];
    for (slot, (is_send, comm, parts, bytes)) in calls.iter().enumerate() {
        let answer = if *is_send {
            world.psend_init(0, 1, 5, *comm, *parts, *bytes)
        } else {
            world.precv_init(0, 1, 5, *comm, *parts, *bytes)
        };
        assert_eq!(rt; answer, Ok(slot as u32));
    }
    let wanted = [(1, 0, 1, 2), (3, 4, 1, 4)];
    for n in 0..world.pair_count() {
        let pair = world.pair(n);
        let parts = (pair.geometry.send_parts(), pair.geometry.recv_parts());
        let got = (pair.send_slot, pair.recv_slot, parts.0, parts.1);
        assert_eq!(rt; Some(&got), wanted.get(n as usize), "pair {n}");
    }
    let partners = [Some(1), Some(0), None, Some(4), Some(3), None];
    for (slot, partner) in partners.iter().enumerate() {
        assert_eq!(rt;
            (world.partner(slot as u32), world.pair_count()),
            (*partner, 2),
            "slot {slot}"
        );
    }
}

#[test]
fn each_fault_is_named(rt: HostRuntime) {
    let mut world = World::new(rt.alloc(), 2, 1, 1).expect(&rt, "within the limits");
    assert_eq!(rt; world.psend_init(0, 1, 0, 0, 3, 4), Ok(0));
    let mismatch = InitFault::SizeMismatch {
        send_total: 12,
        recv_total: 10,
    };
    let faults = [
        ([2, 1, 0, 0, 1, 1], InitFault::BadRank),
        ([0, 2, 0, 0, 1, 1], InitFault::BadRank),
        ([0, 1, 32_768, 0, 1, 1], InitFault::BadTag),
        ([0, 1, 0, 16, 1, 1], InitFault::BadComm),
        ([0, 1, 0, 0, 0, 1], InitFault::BadParts),
        ([0, 1, 0, 0, 1025, 1], InitFault::BadParts),
        ([0, 1, 0, 0, 1, 0], InitFault::BadBytes),
        ([0, 1, 0, 0, 1, 1_048_577], InitFault::BadBytes),
        ([0, 1, 0, 0, 17, 1_048_576], InitFault::TooLong),
        ([0, 1, 0, 0, 2, 5], mismatch),
    ];
    for (n, fault) in faults {
        let answer = world.precv_init(n[0], n[1], n[2], n[3], n[4], n[5]);
        assert_eq!(rt; answer, Err(fault));
    }
    assert_eq!(rt; world.precv_init(0, 1, 0, 0, 2, 6), Ok(1));
}

#[test]
fn a_world_is_filled_to_its_last_byte(rt: HostRuntime) {
    let mut world = World::new(rt.alloc(), 64, 16_777_216, 4).expect(&rt, "within the limits");
    let full = |sum| Err(InitFault::WorldFull { sum });
    let calls = [
        ([16, 1_048_576], Ok(0)),
        ([16, 1_048_576], Ok(1)),
        ([16, 1_048_576], Ok(2)),
        ([15, 1_048_576], Ok(3)),
        ([1, 1_048_575], Ok(4)),
        ([2, 1], full(67_108_865)),
        ([1024, 1024], full(68_157_439)),
        ([1, 1], Ok(5)),
        ([1, 1], full(67_108_865)),
    ];
    for ([parts, bytes], answer) in calls {
        assert_eq!(rt; world.psend_init(63, 0, 32_767, 15, parts, bytes), answer);
    }
}

#[test]
fn numbers_that_make_no_world(rt: HostRuntime) {
    let faults = [
        (0, 1, 1, Some(WorldFault::BadRanks)),
        (65, 1, 1, Some(WorldFault::BadRanks)),
        (64, 0, 1, Some(WorldFault::BadGrain)),
        (1, 16_777_217, 1, Some(WorldFault::BadGrain)),
        (1, 1, 5, Some(WorldFault::BadDepth)),
        (64, 16_777_216, 4, None),
    ];
    for (ranks, grain, depth, fault) in faults {
        let world = World::new(rt.alloc(), ranks, grain, depth);
        assert_eq!(rt; world.err(), fault);
    }
}
