//! A TURN client with 30 permissions and 2 channels, for 20 minutes: none lapses. At each call the preconditions of the theorem
//! `a_lease_never_lapses` of `is_turn_theorems` are asserted, as far as they are seen here, and what it states.

use super::relaying::{MEDIA, peer, sends, takes_data};
use super::side::{Side, address, at, key};
use is_proto::{DefaultSha1HmacProvider, Duration, Instant};
use is_stun::stun::*;
use is_turn::{ClientTiming, Credentials, TurnClient, TurnReceived};
use std::alloc::{AllocError, Global};
use std::net::SocketAddr;
use std::test::*;

// ---- the limits of the theorem

/// `handle_timeout` is called so late at most: in odd minutes.
const LATE: Duration = Duration(20_000_000);

/// A response comes so long after its request.
const WITHIN: Duration = Duration(100_000_000);

/// The allocation goes first so often at most, while a request waits until it is sent.
const OTHERS: u32 = 2;

/// Of 32 places each has its turn once, and the allocation 2 turns: 34 packets, one each 5 ms, and 20 ms late.
const QUEUE: Duration = Duration(34 * 25_000_000);

/// Of the two minutes by which the end is ahead when a renewal is due the caller takes 20 ms, and each of two attempts 850 ms in the queue
/// and 100 ms until its response.
const MARGIN: Duration = Duration(120_000_000_000 - 20_000_000 - 2 * (850_000_000 + 100_000_000));

// ---- the session

const PEERS: u8 = 30;

const MINUTE: u64 = 60_000_000_000;

/// Each peer is sent to and received from so often: one of 30 each 100 ms.
const ROUND: Duration = Duration(3_000_000_000);

const PERIOD: Duration = Duration(100_000_000);

const PERMISSION: Duration = Duration(300_000_000_000);

/// Also that of the allocation.
const CHANNEL: Duration = Duration(600_000_000_000);

/// A renewal is due so long before the end.
const LEAD: u64 = 120_000_000_000;

const NEVER: Instant = Instant(u64::MAX);

/// The places of what the server gives: first the allocation, then the permissions of the peers 1 to 30, then the channels of 1 and 2.
const PLACES: usize = 33;

/// What the server gives in a place, and what is seen of it.
#[derive(Clone, Copy)]
struct Given {
    /// The server has it until then. `None`: not yet.
    until: Option<Instant>,
    /// From then on its next attempt waits to be sent. `NEVER`: an attempt waits for its response.
    due: Instant,
    /// The next attempt gets 438, Stale Nonce: the first one of each request.
    is_stale: bool,
    /// When it was used last.
    used: Instant,
    /// The allocation went first so often since it is due.
    passed: u32,
}

/// An attempt that was sent.
#[derive(Clone, Copy)]
struct Sent {
    id: TransId,
    place: usize,
    at: Instant,
}

#[derive(Drop)]
struct Played {
    side: Side,
    now: Instant,
    /// Since when `handle_timeout` is due, or from when on.
    due: Instant,
    /// When the next data is sent and received, and the peer.
    next: Instant,
    last: u8,
    given: [Given; PLACES],
    /// The attempts in their order, in which they are answered, and how many were.
    sent: Vec<Sent>,
    answered: usize,
    /// How many success responses came.
    successes: u32,
    /// The least time by which an end was ahead.
    least: Duration,
}

fn late(due: Instant) -> Duration {
    if due.0 / MINUTE % 2 == 0 {
        Duration(0)
    } else {
        LATE
    }
}

fn lifetime(place: usize) -> Duration {
    if place == 0 || place > 30 {
        CHANNEL
    } else {
        PERMISSION
    }
}

fn method(place: usize) -> Builder<'static, HasMethod> {
    match place {
        0 => Builder::new().refresh(),
        31 | 32 => Builder::new().channel_bind(),
        _ => Builder::new().create_permission(),
    }
}

fn challenge(sent: Sent) -> StunMessage<'static> {
    let message = method(sent.place).failure().error_code(438, "");
    message.realm("realm").nonce("another").build(sent.id)
}

fn success(sent: Sent) -> StunMessage<'static> {
    let message = method(sent.place).success();
    message.lifetime(600).build(sent.id)
}

/// The place that a request is for, if it is signed.
fn place_in(packet: &[u8]) -> Option<usize> {
    let Ok(message) = StunMessage::parse_any(packet) else {
        return None;
    };
    let last = match message.xor_peer_address() {
        Some(SocketAddr::V4(peer)) => usize::from(peer.ip().octets()[3]),
        _ => 0,
    };
    if !message.verify(&key(), &DefaultSha1HmacProvider) {
        None
    } else if message.is_channel_bind_request() {
        Some(30 + last)
    } else if message.is_create_permission_request() || message.is_refresh_request() {
        Some(last)
    } else {
        None
    }
}

impl Given {
    fn ahead(&self, now: Instant) -> Duration {
        match self.until {
            Some(until) => until - now,
            None => CHANNEL,
        }
    }

    /// It is used, the allocation seldom goes first, an attempt is sent in time, and the end is ahead.
    fn holds(&self, now: Instant) -> bool {
        now <= self.used + ROUND
            && self.passed <= OTHERS
            && now <= self.due + QUEUE
            && MARGIN <= self.ahead(now)
    }
}

impl Played {
    // ---- at each call

    /// The caller is punctual, and the server answers.
    fn is_in_time(&self) -> bool {
        let is_answered = match self.sent.get(self.answered) {
            Some(sent) => self.now <= sent.at + WITHIN,
            None => true,
        };
        self.now <= self.due + LATE && is_answered
    }

    fn all_hold(&mut self) -> bool {
        for given in &self.given {
            if !given.holds(self.now) {
                return false;
            }
            self.least = self.least.min(given.ahead(self.now));
        }
        self.is_in_time() && self.side.client.allocation().is_some()
    }

    /// Sees what is due after a call, given since when it is at the earliest.
    fn sees(&mut self, since: Instant) {
        let time = match self.side.client.poll_timeout() {
            Some(time) => time,
            None => NEVER,
        };
        self.due = time.max(since);
    }

    // ---- `handle_timeout`

    /// The allocation goes first.
    fn passes(&mut self) {
        for given in &mut self.given {
            if given.due <= self.now {
                given.passed = given.passed.saturating_add(1);
            }
        }
    }

    /// Another attempt leaves, and no repetition: it was due.
    fn leaves(&mut self, place: usize) -> bool {
        if place >= PLACES {
            return false;
        }
        if place == 0 {
            self.passes();
        }
        let is_due = self.given[place].due <= self.now;
        self.given[place].due = NEVER;
        self.given[place].passed = 0;
        let sent = Sent {
            id: self.side.id(),
            place,
            at: self.now,
        };
        is_due && self.sent.push(sent).is_ok()
    }

    fn times_out(&mut self) -> bool {
        self.side
            .client
            .handle_timeout(self.now, &mut self.side.rng);
        let place = match self.side.client.poll_transmit(&mut self.side.packet) {
            Ok(Some(len)) if len <= 300 => place_in(&self.side.packet[..len]),
            _ => return true,
        };
        match place {
            Some(place) => self.leaves(place),
            None => false,
        }
    }

    // ---- the server

    fn takes(&mut self, message: StunMessage<'_>) -> bool {
        self.side.hear(self.now.0 / 1_000_000, true, message) == TurnReceived::Own
    }

    /// The response to an attempt arrives: the first one of a request gets 438, the second one success.
    fn answers(&mut self, sent: Sent) -> bool {
        self.answered = self.answered.saturating_add(1);
        if sent.place >= PLACES {
            return false;
        }
        let given = &mut self.given[sent.place];
        given.is_stale = !given.is_stale;
        if !given.is_stale {
            given.due = self.now;
            return self.takes(challenge(sent));
        }
        let lifetime = lifetime(sent.place);
        given.until = Some(sent.at + lifetime);
        given.due = sent.at + Duration(lifetime.0.saturating_sub(LEAD));
        self.successes = self.successes.saturating_add(1);
        self.takes(success(sent))
    }

    // ---- the user

    fn uses(&mut self, place: usize) {
        if place < PLACES {
            self.given[place].used = self.now;
        }
    }

    fn is_given(&self, place: usize) -> bool {
        place < PLACES && self.given[place].until.is_some()
    }

    fn receives(&mut self, now: u64, is_bound: bool) -> bool {
        let from = peer(self.last, 1000);
        if !is_bound {
            return takes_data(&mut self.side, now, from);
        }
        let bytes = [0x40, self.last.saturating_add(29), 0, 3, 0x80, 1, 2];
        let received = self.side.client.receive(self.now, address(1), &bytes);
        matches!(received, TurnReceived::Data(peer, contents) if peer == from && contents == MEDIA.as_slice())
    }

    /// Media is sent to the next peer and received from it: over its channel, if it is bound.
    fn talks(&mut self) -> bool {
        let now = self.now.0 / 1_000_000;
        self.next = self.now + PERIOD;
        self.last = self.last % PEERS + 1;
        let last = usize::from(self.last);
        self.uses(last);
        self.uses(30 + last);
        let is_bound = last <= 2 && self.is_given(30 + last);
        let number = if is_bound {
            0x401d + u16::from(self.last)
        } else {
            0x16
        };
        sends(&mut self.side, now, peer(self.last, 1000), &MEDIA) == Some(number)
            && self.receives(now, is_bound)
    }

    /// Once, while each permission waits to be renewed, the user asks whether there is an allocation.
    fn probes(&mut self) {
        if self.now == at(180_520) {
            self.given[0].due = self.now;
            self.side.client.probe(self.now);
        }
    }

    // ---- all

    fn next_response(&self) -> Instant {
        match self.sent.get(self.answered) {
            Some(sent) => sent.at + WITHIN,
            None => NEVER,
        }
    }

    fn calls(&mut self) -> bool {
        match self.sent.get(self.answered) {
            Some(sent) if sent.at + WITHIN <= self.now => {
                let sent = *sent;
                self.answers(sent)
            }
            _ => {
                self.probes();
                self.talks()
            }
        }
    }

    /// The next call, in time; whether all holds.
    fn plays(&mut self) -> bool {
        let next = self.next_response().min(self.next);
        let timeout = self.due + late(self.due);
        let is_forward = self.now <= timeout.min(next);
        self.now = timeout.min(next);
        let holds = self.all_hold() && is_forward;
        if timeout <= next {
            let succeeds = self.times_out();
            self.sees(self.now);
            return succeeds && holds;
        }
        let before = self.due;
        let succeeds = self.calls();
        self.sees(before.min(self.now));
        succeeds && holds
    }
}

/// A client with 32 places that has an allocation since 20 ms, requested at 10 ms; then the 30 peers are permitted.
fn begun(alloc: Global) -> Result<Side, AllocError> {
    let mut side = Side::new(alloc, None)?;
    side.client = TurnClient::new(
        alloc,
        address(1),
        Credentials::new("user", "pass"),
        None,
        ClientTiming::rfc(),
        600,
        32,
        DefaultSha1HmacProvider,
    )?;
    side.client.start(at(0));
    let _first = side.step();
    let _taken = side.challenge(10, 401, "nonce");
    let _second = side.step();
    let _allocated = side.allocate(20, true);
    let _event = side.client.poll_event();
    for last in 1..PEERS + 1 {
        let _permitted = side.client.permit(at(20), peer(last, 1000));
    }
    Ok(side)
}

/// The caller is punctual in even minutes, and 20 ms late in odd ones: requests that left each 5 ms are renewed each 25 ms.
fn session(alloc: Global) -> Result<Played, AllocError> {
    let requested = Given {
        until: None,
        due: at(20),
        is_stale: true,
        used: at(20),
        passed: 0,
    };
    let mut played = Played {
        side: begun(alloc)?,
        now: at(20),
        due: at(20),
        next: at(20),
        last: 0,
        given: [requested; PLACES],
        sent: Vec::new(alloc),
        answered: 0,
        successes: 0,
        least: CHANNEL,
    };
    played.given[0] = Given {
        until: Some(at(600_010)),
        due: at(480_010),
        is_stale: true,
        used: NEVER,
        passed: 0,
    };
    Ok(played)
}

/// The last permission has 118.5 s left when it is renewed: then 60 packets of permissions and 2 of the allocation have left.
#[test]
fn no_lease_lapses(rt: HostRuntime) -> Result<(), AllocError> {
    let mut played = session(rt.alloc())?;
    let mut holds = true;
    for _ in 0..40_000 {
        if played.now < at(1_200_000) {
            holds = played.plays() && holds;
        }
    }
    assert!(rt; holds && at(1_200_000) <= played.now);
    assert!(rt;
        played.least < Duration(118_600_000_000),
        "{}",
        played.least.0
    );
    assert!(rt; played.successes == 219, "{}", played.successes);
    assert!(rt;
        played.side.client.poll_event().is_none()
            && !played.side.client.permit(played.now, peer(31, 1000))
    );
    Ok(())
}
