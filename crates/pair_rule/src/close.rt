//! How a pair ends.

ghost use Rattle.std.specs.Prelude.{◌≡◌, ◌*◌, ◌<◌, ◌≤◌, ℕ};
ghost use Rattle.std.specs.Mem.Slots.{IsFull};
ghost use Rattle.part_geometry.specs.Pieces.{pieces};
ghost use Rattle.pair_core.specs.Moves.{IsSendIdle, IsRecvIdle};
ghost use Rattle.pair_rule.specs.First.{spent, closed};
ghost use Rattle.pair_rule.specs.Rule.{IsWhole, MayMark, bytes_of};
ghost use Rattle.pair_rule.specs.Seats.{IsOf, rounds_of};

use crate::buf::CellBuf;
use crate::content::Content;
use crate::pair::Pair;
use crate::seats::{RecvSeat, SendSeat};
use crate::view::View;
use crate::words::{claim_word, release_word};
use atomic_table::{Badge, Join, Split};
use gate_word::round_of;
use part_geometry::Geometry;
use std::alloc::Global;
use std::marker::Model;

/// The receive side is joined into the send side.
pub(crate) struct TakesInReceiver;

impl Join<View> for TakesInReceiver {
    ghost both = { closed };

    ghost spent = { spent };
}

/// What was joined is kept.
pub(crate) struct Keeps;

impl Split<View> for Keeps {
    ghost left = { λ d. d };

    ghost right = { λ d. d };
}

/// What a pair that was closed did. Only `Pair::close` makes one. Contracts see the bytes of each round too, which take
/// no memory in a running program.
#[derive(Drop)]
pub struct Closed {
    record: Badge<View>,
    geometry: Geometry,
    sent: u32,
    received: u32,
    pieces_out: u64,
}

impl Model for Closed {
    ghost use Rattle.pair_rule.specs.Seats.{ClosedOf, rounds_in};

    ghost Value = { ClosedOf };

    ghost view = { λ c. record {
      geometry = c.geometry;
      sent = c.sent;
      received = c.received;
      pieces_out = c.pieces_out;
      rounds = rounds_in c.record.views;
    } };
}

impl Closed {
    /// The pair's geometry.
    pub fn geometry(&self) -> Geometry
        ensures { result ≡ self.now.geometry }
    {
        self.geometry
    }

    /// How many rounds were sent.
    pub fn sent(&self) -> u32
        ensures { result ≡ self.now.sent }
    {
        self.sent
    }

    /// How many rounds were received.
    pub fn received(&self) -> u32
        ensures { result ≡ self.now.received }
    {
        self.received
    }

    /// How many pieces went out.
    pub fn pieces_out(&self) -> u64
        ensures { result ≡ self.now.pieces_out }
    {
        self.pieces_out
    }
}

/// Gives the words and the slots of a closed table back, and the buffers in them.
fn release(mut closed: atomic_table::Closed<Option<CellBuf>, Global>)
    requires { IsFull closed.slots }
{
    let mut slot = 0;
    while slot < closed.slot_count() {
        drop(closed.take(slot));
        slot += 1;
    }
    closed.free();
}

impl<C: Content> Pair<C> {
    /// Closes a pair whose sides are idle, and whose markers and watchers were all joined. Each partition of each round
    /// sent was marked once, with bytes that may be, and each receive partition of each round received was taken
    /// once, with the bytes that were marked there; what was closed has the bytes of each round. It takes no memory.
    pub fn close(self, send: SendSeat<C>, recv: RecvSeat<C>) -> Closed
        requires send { IsOf send.table send.view self }
        requires recv { recv.table ≡ send.table }
        requires idle { IsSendIdle self.key.geometry send.view.send × IsRecvIdle recv.view.recv }
        requires joined { (send.view.send.markers ≡ 0) × (recv.view.recv.watchers ≡ 0) }
        ensures record { result ≡ record {
          geometry = self.key.geometry;
          sent = send.view.send.round;
          received = recv.view.recv.round;
          pieces_out = send.view.send.round * pieces self.key.geometry;
          rounds = rounds_of self.key.geometry send.view.send.round send.view.marks;
        } }
        ensures whole { IsWhole C.may self.key (closed send.view recv.view) }
        ensures bytes { (k p : ℕ) → 1 ≤ k → k ≤ send.view.send.round → p < self.key.geometry.send_parts
            → MayMark C.may self.key k p (bytes_of send.view.marks k p) }
    {
        let (table, tables) = self.into_parts();
        let mut place = send.into_place();
        table
            .shared
            .join_seat::<TakesInReceiver>(&mut place, recv.into_place());
        let kept = table.shared.split_seat::<Keeps>(&mut place);
        let closed = table.close_with(place);
        let sent = round_of(closed.word(claim_word(&tables, 0)));
        let received = round_of(closed.word(release_word(&tables)));
        let geometry = tables.geometry();
        let pieces_out = u64::from(sent) * tables.pieces() as u64;
        release(closed);
        Closed {
            record: kept.into_badge(),
            geometry,
            sent,
            received,
            pieces_out,
        }
    }
}
