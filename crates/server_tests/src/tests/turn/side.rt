//! A TURN client with what a server sends to it.

use is_proto::{DefaultSha1HmacProvider, Duration, Instant};
use is_stun::stun::*;
use is_turn::{
    Allocation, ClientTiming, Credentials, Ending, TurnClient, TurnEvent, TurnReceived, Why,
    long_term_key,
};
use rand_core::SeedableRng;
use rand_pcg::Pcg32;
use std::alloc::{AllocError, Global};
use std::net::{Ipv4Addr, SocketAddr, SocketAddrV4};

pub(super) fn address(last: u8) -> SocketAddr {
    SocketAddr::V4(SocketAddrV4::new(Ipv4Addr::new(192, 0, 2, last), 3478))
}

pub(super) fn at(millis: u64) -> Instant {
    Instant(Duration::from_millis(millis).0)
}

pub(super) fn key() -> [u8; 16] {
    long_term_key(b"user", b"realm", b"pass")
}

pub(super) fn allocation() -> Allocation {
    Allocation {
        relayed: address(50),
        mapped: Some(address(77)),
    }
}

/// A client that was started, its random source, and the last packet that it sent.
#[derive(Drop)]
pub(super) struct Side {
    pub(super) client: TurnClient<DefaultSha1HmacProvider>,
    pub(super) rng: Pcg32,
    pub(super) packet: [u8; 300],
    pub(super) len: usize,
}

impl Side {
    pub(super) fn new(alloc: Global, credentials: Option<Credentials>) -> Result<Side, AllocError> {
        let mut client = TurnClient::new(
            alloc,
            address(1),
            credentials,
            None,
            ClientTiming::rfc(),
            600,
            4,
            DefaultSha1HmacProvider,
        )?;
        client.start(at(0));
        Ok(Side {
            client,
            rng: Pcg32::seed_from_u64(7),
            packet: [0; 300],
            len: 0,
        })
    }

    /// Makes the timeout that is due, and returns its time and whether a packet was sent.
    pub(super) fn step(&mut self) -> (Option<Instant>, bool) {
        let time = self.client.poll_timeout();
        if let Some(now) = time {
            self.client.handle_timeout(now, &mut self.rng);
        }
        match self.client.poll_transmit(&mut self.packet) {
            Ok(Some(len)) => {
                self.len = len;
                (time, true)
            }
            _ => (time, false),
        }
    }

    /// Whether a packet is due at this time, and sent then.
    pub(super) fn sends_at(&mut self, millis: u64) -> bool {
        self.step() == (Some(at(millis)), true)
    }

    pub(super) fn id(&self) -> TransId {
        let mut id = [0; 12];
        id.copy_from_slice(&self.packet[8..20]);
        TransId(id)
    }

    /// Whether the last packet is a request with this first byte pair, signed with the key or not.
    pub(super) fn sent(&self, typ: u8, signs: bool) -> bool {
        if self.len > self.packet.len() {
            return false;
        }
        match StunMessage::parse_any(&self.packet[..self.len]) {
            Ok(message) => {
                self.packet[0] == 0
                    && self.packet[1] == typ
                    && message.has_integrity() == signs
                    && (!signs || message.verify(&key(), &DefaultSha1HmacProvider))
            }
            Err(_) => false,
        }
    }

    /// Passes a message to the client, signed with the key or not.
    pub(super) fn hear(
        &mut self,
        now: u64,
        signs: bool,
        message: StunMessage<'_>,
    ) -> TurnReceived<'static> {
        let mut buf = [0; 200];
        let key = key();
        let key = if signs { Some(key.as_slice()) } else { None };
        match message.to_bytes(key, &mut buf, &DefaultSha1HmacProvider) {
            Ok(len) => match self.client.receive(at(now), address(1), &buf[..len]) {
                TurnReceived::Own => TurnReceived::Own,
                TurnReceived::Dropped(reason) => TurnReceived::Dropped(reason),
                _ => TurnReceived::Other,
            },
            Err(_) => TurnReceived::Other,
        }
    }

    /// What the client makes of a challenge.
    pub(super) fn challenge(&mut self, now: u64, code: u16, nonce: &str) -> TurnReceived<'static> {
        let message = Builder::new()
            .allocate()
            .failure()
            .error_code(code, "")
            .realm("realm")
            .nonce(nonce)
            .build(self.id());
        self.hear(now, false, message)
    }

    /// What it makes of an error of a Refresh.
    pub(super) fn fail(&mut self, now: u64, signs: bool, code: u16) -> TurnReceived<'static> {
        let message = Builder::new()
            .refresh()
            .failure()
            .error_code(code, "")
            .build(self.id());
        self.hear(now, signs, message)
    }

    /// What it makes of a success response to Allocate.
    pub(super) fn allocate(&mut self, now: u64, signs: bool) -> TurnReceived<'static> {
        let message = Builder::new()
            .allocate()
            .success()
            .lifetime(600)
            .xor_relayed_address(address(50))
            .xor_mapped_address(address(77))
            .build(self.id());
        self.hear(now, signs, message)
    }

    pub(super) fn refresh(&mut self, now: u64, lifetime: u32) -> TurnReceived<'static> {
        let message = Builder::new()
            .refresh()
            .success()
            .lifetime(lifetime)
            .build(self.id());
        self.hear(now, true, message)
    }

    pub(super) fn reports(&mut self, event: Option<TurnEvent>) -> bool {
        self.client.poll_event() == event
    }

    pub(super) fn ends(&mut self, why: Why, code: Option<u16>, unverified: Option<u16>) -> bool {
        let ending = Ending {
            why,
            code,
            unverified,
        };
        self.reports(Some(TurnEvent::Ended(ending))) && self.client.poll_timeout().is_none()
    }
}

/// A client with credentials that has an allocation since 20 ms, requested at 10 ms.
pub(super) fn allocated(alloc: Global) -> Result<Side, AllocError> {
    let mut side = Side::new(alloc, Credentials::new("user", "pass"))?;
    let _first = side.step();
    let _taken = side.challenge(10, 401, "nonce");
    let _second = side.step();
    let _allocated = side.allocate(20, true);
    let _event = side.client.poll_event();
    Ok(side)
}
