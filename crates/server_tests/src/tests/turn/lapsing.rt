//! A TURN client of two hours: nothing lapses.

use super::side::{Side, allocated, at};
use is_proto::{Duration, Instant};
use is_stun::stun::*;
use is_turn::TurnReceived;
use std::alloc::AllocError;
use std::net::{Ipv4Addr, SocketAddr, SocketAddrV4};
use std::test::*;

/// `handle_timeout` is called so late.
const LATE: Duration = Duration(20_000_000);

/// A response to a renewal comes so long after its request; those to requests for leases come at once.
const ROUND_TRIP: Duration = Duration(100_000_000);

/// Data is sent as often.
const PERIOD: Duration = Duration(1_000_000_000);

const LIFETIME: Duration = Duration(600_000_000_000);

/// Of the two minutes by which the end is ahead when a renewal is due the caller takes 20 ms, and each of two attempts 20 ms, 5 ms for
/// the pace and a round trip.
const MARGIN: Duration = Duration(119_730_000_000);

/// A renewal that waits for its response.
#[derive(Clone, Copy)]
struct Waiting {
    id: TransId,
    sent: Instant,
}

/// A session, and what the server gave.
#[derive(Drop)]
struct Played {
    side: Side,
    now: Instant,
    /// Since when `handle_timeout` is due, or from when on.
    due: Instant,
    waiting: Option<Waiting>,
    /// When the next data is sent.
    send: Instant,
    /// The server has the allocation until then, at least.
    until: Instant,
    /// The nonce of the next renewal is stale.
    is_stale: bool,
    renewals: u32,
    leases: u32,
}

fn peer() -> SocketAddr {
    SocketAddr::V4(SocketAddrV4::new(Ipv4Addr::new(203, 0, 113, 1), 1000))
}

impl Played {
    fn next(&self) -> Instant {
        match self.waiting {
            Some(waiting) => (waiting.sent + ROUND_TRIP).min(self.send),
            None => self.send,
        }
    }

    /// Sees what is due after a call, given since when it is at the earliest.
    fn sees(&mut self, since: Instant) {
        let time = match self.side.client.poll_timeout() {
            Some(time) => time,
            None => Instant(u64::MAX),
        };
        self.due = time.max(since);
    }

    /// `handle_timeout` is called, and its packet leaves.
    fn times_out(&mut self) {
        self.now = self.due + LATE;
        self.side
            .client
            .handle_timeout(self.now, &mut self.side.rng);
        if let Ok(Some(_)) = self.side.client.poll_transmit(&mut self.side.packet) {
            let id = self.side.id();
            match self.side.packet[1] {
                4 => self.waiting = Some(Waiting { id, sent: self.now }),
                8 => self.gives(Builder::new().create_permission().success().build(id)),
                9 => self.gives(Builder::new().channel_bind().success().build(id)),
                _ => {}
            }
        }
        self.sees(self.now);
    }

    fn takes(&mut self, message: StunMessage<'_>) -> bool {
        self.side.hear(self.now.0 / 1_000_000, true, message) == TurnReceived::Own
    }

    fn gives(&mut self, message: StunMessage<'_>) {
        if self.takes(message) {
            self.leases = self.leases.saturating_add(1);
        }
    }

    /// The response arrives: of each renewal first 438, Stale Nonce.
    fn answers(&mut self, waiting: Waiting) -> bool {
        self.waiting = None;
        let message = Builder::new().refresh();
        let message = if self.is_stale {
            let message = message.failure().error_code(438, "");
            message.realm("realm").nonce("another").build(waiting.id)
        } else {
            self.until = waiting.sent + LIFETIME;
            self.renewals = self.renewals.saturating_add(1);
            message.success().lifetime(600).build(waiting.id)
        };
        self.is_stale = !self.is_stale;
        self.takes(message)
    }

    /// Something is sent to the peer, over the channel once it is bound.
    fn sends(&mut self) -> bool {
        let mut buf = [0; 100];
        self.send = self.now + PERIOD;
        let sent = self.side.client.send(
            self.now,
            peer(),
            &[0x80, 1, 2],
            &TransId([5; 12]),
            &mut buf,
        );
        matches!(sent, Ok(Some(_)))
    }

    /// The next call, in time; whether it succeeds, and the end is ahead.
    fn plays(&mut self) -> bool {
        let next = self.next();
        let succeeds = if self.due + LATE <= next {
            self.times_out();
            true
        } else {
            let before = self.due;
            self.now = next;
            let succeeds = match self.waiting {
                Some(waiting) if waiting.sent + ROUND_TRIP <= self.send => self.answers(waiting),
                _ => self.sends(),
            };
            self.sees(before.min(self.now));
            succeeds
        };
        succeeds && self.now + MARGIN <= self.until
    }
}

/// For two hours, with a caller 20 ms late, a round trip of 100 ms and a stale nonce at each renewal. The allocation is renewed each
/// 480.14 s, the permission each 180.02 s, the channel each 480.02 s.
#[test]
fn nothing_lapses(rt: HostRuntime) -> Result<(), AllocError> {
    let mut played = Played {
        side: allocated(rt.alloc())?,
        now: at(20),
        due: at(20),
        waiting: None,
        send: at(20),
        until: at(10) + LIFETIME,
        is_stale: true,
        renewals: 0,
        leases: 0,
    };
    let mut holds = true;
    for _ in 0..20_000 {
        if played.now < at(7_200_000) {
            holds = played.plays() && holds;
        }
    }
    assert!(rt;
        holds
            && at(7_200_000) <= played.now
            && played.renewals == 14
            && played.leases == 55
            && played.side.client.allocation().is_some()
            && played.side.client.poll_event().is_none()
            && played.side.client.channel(peer()).is_some()
    );
    Ok(())
}
