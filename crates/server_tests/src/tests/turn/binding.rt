//! A STUN client: when it sends, what it takes from whom, and when it fails.

use is_proto::{DefaultSha1HmacProvider, Duration, Instant, StunError};
use is_stun::stun::*;
use is_turn::{ClientTiming, Received, StunClient, StunEvent};
use rand_core::SeedableRng;
use rand_pcg::Pcg32;
use std::net::{Ipv4Addr, SocketAddr, SocketAddrV4};
use std::test::*;

fn address(last: u8) -> SocketAddr {
    SocketAddr::V4(SocketAddrV4::new(Ipv4Addr::new(192, 0, 2, last), 3478))
}

fn at(millis: u64) -> Instant {
    Instant(Duration::from_millis(millis).0)
}

/// A client that was started, its random source, and the last packet that it sent.
#[derive(Drop)]
struct Side {
    client: StunClient,
    rng: Pcg32,
    packet: [u8; 28],
}

impl Side {
    fn new(timing: ClientTiming) -> Side {
        let mut client = StunClient::new(address(1), timing);
        client.start(at(0));
        Side {
            client,
            rng: Pcg32::seed_from_u64(7),
            packet: [0; 28],
        }
    }

    /// Makes the timeout that is due, and returns its time and whether a packet was sent.
    fn step(&mut self) -> (Option<Instant>, bool) {
        let time = self.client.poll_timeout();
        if let Some(now) = time {
            self.client.handle_timeout(now, &mut self.rng);
        }
        let sent = self.client.poll_transmit(&mut self.packet);
        (time, sent == Ok(Some(28)))
    }

    fn id(&self) -> TransId {
        let mut id = [0; 12];
        id.copy_from_slice(&self.packet[8..20]);
        TransId(id)
    }

    /// Passes a message to the client.
    fn hear(&mut self, now: u64, source: SocketAddr, message: StunMessage<'_>) -> Received {
        let mut buf = [0; 100];
        match message.to_bytes(None, &mut buf, &DefaultSha1HmacProvider) {
            Ok(len) => self.client.receive(at(now), source, &buf[..len]),
            Err(_) => Received::Unparsed,
        }
    }

    fn success(&self, mapped: SocketAddr) -> StunMessage<'static> {
        StunMessage::binding_reply(self.id(), mapped)
    }

    /// Whether a packet is due at this time, and sent then.
    fn sends_at(&mut self, millis: u64) -> bool {
        self.step() == (Some(at(millis)), true)
    }

    /// Whether the server's response to the last packet counts.
    fn is_answered(&mut self, now: u64, mapped: SocketAddr) -> bool {
        let response = self.success(mapped);
        self.hear(now, address(1), response) == Received::Own
    }

    /// Whether the server's error response to the last packet counts.
    fn gets_error(&mut self, now: u64, code: u16) -> bool {
        let error = Builder::new()
            .binding()
            .failure()
            .error_code(code, "")
            .build(self.id());
        self.hear(now, address(1), error) == Received::Own
    }

    /// Whether this is the next event.
    fn reports(&mut self, event: Option<StunEvent>) -> bool {
        self.client.poll_event() == event
    }
}

/// RFC 8489, section 6.2.1: with an RTO of 500 ms a request is sent at these times, and times out after 39500 ms.
#[test]
fn requests_are_sent_at_the_times_of_the_rfc(rt: HostRuntime) {
    let mut side = Side::new(ClientTiming::rfc());
    for millis in [0, 500, 1500, 3500, 7500, 15500, 31500] {
        assert!(rt; side.sends_at(millis) && side.reports(None));
    }
    assert!(rt;
        side.step() == (Some(at(39500)), false)
            && side.reports(Some(StunEvent::Failed(None)))
            && side.client.poll_timeout().is_none()
    );
}

#[test]
fn nothing_is_due_before_its_time(rt: HostRuntime) {
    let mut side = Side::new(ClientTiming::modern());
    let mut short = [0; 27];
    assert!(rt; side.client.poll_transmit(&mut short) == Ok(None));
    side.client.handle_timeout(at(0), &mut side.rng);
    assert!(rt;
        side.client.poll_transmit(&mut short) == Err(StunError::BufferTooShort)
            && side.client.poll_transmit(&mut side.packet) == Ok(Some(28))
            && side.client.poll_transmit(&mut side.packet) == Ok(None)
    );
    let first = side.id();
    side.client.handle_timeout(at(199), &mut side.rng);
    assert!(rt; side.client.poll_transmit(&mut side.packet) == Ok(None));
    side.client.handle_timeout(at(200), &mut side.rng);
    assert!(rt; side.client.poll_transmit(&mut side.packet) == Ok(Some(28)) && side.id() == first);
}

/// What does not count, after the first packet: the response from elsewhere, media, and messages of other kinds.
#[test]
fn only_the_response_of_the_server_counts(rt: HostRuntime) {
    let mut side = Side::new(ClientTiming::rfc());
    assert!(rt; side.sends_at(0));
    let response = side.success(address(77));
    assert!(rt;
        side.hear(10, address(2), response) == Received::Other
            && side.client.receive(at(10), address(1), b"media") == Received::Unparsed
            && side.hear(10, address(1), response) == Received::Own
            && side.client.mapped() == Some(address(77))
            && side.reports(Some(StunEvent::Mapped(address(77))))
            && side.reports(None)
            && side.hear(20, address(1), response) == Received::Unasked
    );
}

#[test]
fn other_messages_of_the_server_count_for_nothing(rt: HostRuntime) {
    let mut side = Side::new(ClientTiming::rfc());
    assert!(rt; side.sends_at(0));
    let other = StunMessage::binding_reply(TransId([9; 12]), address(77));
    assert!(rt; side.hear(10, address(1), other) == Received::Unasked);
    let bare = Builder::new().binding().success().build(side.id());
    assert!(rt; side.hear(10, address(1), bare) == Received::Malformed);
    let request = Builder::new().binding().request().build(side.id());
    assert!(rt;
        side.hear(10, address(1), request) == Received::Unasked && side.client.mapped().is_none()
    );
}

#[test]
fn a_mapping_is_kept_and_reported_if_it_changes(rt: HostRuntime) {
    let mut side = Side::new(ClientTiming::rfc());
    assert!(rt;
        side.sends_at(0)
            && side.is_answered(100, address(77))
            && side.reports(Some(StunEvent::Mapped(address(77))))
            && side.sends_at(20100)
            && side.is_answered(20200, address(77))
            && side.reports(None)
            && side.sends_at(40200)
            && side.is_answered(40300, address(78))
            && side.reports(Some(StunEvent::Mapped(address(78))))
    );
}

#[test]
fn each_request_has_an_id_of_its_own(rt: HostRuntime) {
    let mut side = Side::new(ClientTiming::rfc());
    assert!(rt; side.sends_at(0) && side.is_answered(100, address(77)));
    let first = side.id();
    assert!(rt; side.sends_at(20100) && side.id() != first);
}

/// Nor does silence.
#[test]
fn an_error_ends_nothing_once_there_was_an_answer(rt: HostRuntime) {
    let mut side = Side::new(ClientTiming::rfc());
    assert!(rt;
        side.sends_at(0)
            && side.is_answered(100, address(77))
            && side.reports(Some(StunEvent::Mapped(address(77))))
            && side.sends_at(20100)
            && side.gets_error(20200, 500)
            && side.reports(None)
            && side.client.poll_timeout() == Some(at(40200))
    );
}

#[test]
fn an_error_ends_the_first_request(rt: HostRuntime) {
    let mut side = Side::new(ClientTiming::rfc());
    assert!(rt;
        side.sends_at(0)
            && side.gets_error(10, 300)
            && side.reports(Some(StunEvent::Failed(Some(300))))
            && side.client.poll_timeout().is_none()
    );
    side.client.start(at(20));
    assert!(rt; side.client.poll_timeout().is_none());
}
