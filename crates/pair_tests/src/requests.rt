//! Two requests through their states.

use part_api::{
    FreeFault, Freed, ReqFault, ReqState, Request, Side, start_recv_plain, start_send_plain,
    test_recv_plain, test_send_plain,
};
use part_geometry::{Geometry, RecvTest};
use plain_pair::{PlainPair, PlainSendTest};

#[test]
fn requests_go_through_their_states(rt: HostRuntime) {
    let geometry = Geometry::new(1, 1, 1, 1, 1, 1).expect(&rt, "within the limits");
    let mut pair = PlainPair::create(rt.alloc(), geometry).expect(&rt, "enough memory");
    let mut send = Request::new(Side::SendSide);
    let mut recv = Request::new(Side::RecvSide);
    let unmatched = (
        start_send_plain(&mut send, &mut pair),
        test_send_plain(&mut send, &mut pair),
        recv.free(),
        recv.side(),
    );
    send.matched();
    recv.matched();
    let started = (
        start_send_plain(&mut send, &mut pair),
        start_recv_plain(&mut recv, &mut pair),
        start_send_plain(&mut send, &mut pair),
        test_recv_plain(&mut recv, &mut pair),
    );
    let ended = (send.state(), send.free());
    let active = (
        ReqState::Started { round: 1 },
        Err(FreeFault::Active { round: 1 }),
    );
    assert_eq!(rt;
        (unmatched, started, ended),
        (
            (
                Err(ReqFault::Unmatched),
                Ok(PlainSendTest::Idle),
                Err(FreeFault::Unmatched),
                Side::RecvSide
            ),
            (
                Ok(1),
                Ok(1),
                Err(ReqFault::AlreadyActive { round: 1 }),
                Ok(RecvTest::Untaken { q: 0 })
            ),
            active
        )
    );
}

#[test]
fn a_round_completes_both_requests(rt: HostRuntime) {
    let geometry = Geometry::new(1, 1, 1, 1, 1, 1).expect(&rt, "within the limits");
    let mut pair = PlainPair::create(rt.alloc(), geometry).expect(&rt, "enough memory");
    let mut send = Request::new(Side::SendSide);
    let mut recv = Request::new(Side::RecvSide);
    send.matched();
    recv.matched();
    let started = (
        start_send_plain(&mut send, &mut pair),
        start_recv_plain(&mut recv, &mut pair),
        pair.pready(1, 0, b"a").is_ok(),
        test_send_plain(&mut send, &mut pair),
    );
    let taken = pair.take(0).expect(&rt, "arrived");
    pair.give_back(taken);
    let tested = (
        test_recv_plain(&mut recv, &mut pair),
        recv.state(),
        test_send_plain(&mut send, &mut pair),
        start_send_plain(&mut send, &mut pair),
    );
    let freed = (
        recv.free(),
        test_recv_plain(&mut recv, &mut pair),
        start_recv_plain(&mut recv, &mut pair),
        recv.free(),
    );
    let unreleased = PlainSendTest::Unreleased { released: 0 };
    let complete = ReqState::Complete { round: 1 };
    assert_eq!(rt;
        (started, tested, freed),
        (
            (Ok(1), Ok(1), true, Ok(unreleased)),
            (Ok(RecvTest::Done), complete, Ok(PlainSendTest::Done), Ok(2)),
            (
                Ok(()),
                Err(Freed),
                Err(ReqFault::Freed),
                Err(FreeFault::Freed)
            )
        )
    );
}
