//! A program with STUN and TURN clients, and what their servers send to it.

use is_proto::{DefaultSha1HmacProvider, Duration, Instant};
use is_servers::{
    Datagram, Happened, ServerEvent, ServerOutgoing, ServerPacket, Servers, Transport,
};
use is_stun::stun::*;
use is_turn::{Allocation, ClientTiming, TurnClient};
use rand_core::SeedableRng;
use rand_pcg::Pcg32;
use std::alloc::{AllocError, Global};
use std::net::{Ipv4Addr, SocketAddr, SocketAddrV4};

pub(super) const MEDIA: [u8; 5] = [0x80, 1, 2, 3, 4];

pub(super) fn socket(port: u16) -> SocketAddr {
    SocketAddr::V4(SocketAddrV4::new(Ipv4Addr::new(10, 0, 0, 1), port))
}

pub(super) fn server(last: u8) -> SocketAddr {
    SocketAddr::V4(SocketAddrV4::new(Ipv4Addr::new(192, 0, 2, last), 3478))
}

pub(super) fn peer() -> SocketAddr {
    SocketAddr::V4(SocketAddrV4::new(Ipv4Addr::new(203, 0, 113, 9), 1000))
}

pub(super) fn at(millis: u64) -> Instant {
    Instant(Duration::from_millis(millis).0)
}

pub(super) fn allocation() -> Allocation {
    Allocation {
        relayed: server(50),
        mapped: Some(server(77)),
    }
}

/// A program, its random source, and the last packet that it sent.
#[derive(Drop)]
pub(super) struct Program {
    pub(super) servers: Servers<DefaultSha1HmacProvider>,
    pub(super) rng: Pcg32,
    pub(super) packet: [u8; 200],
}

impl Program {
    pub(super) fn new(alloc: Global) -> Program {
        Program {
            servers: Servers::new(alloc),
            rng: Pcg32::seed_from_u64(3),
            packet: [0; 200],
        }
    }

    /// Adds a STUN client at 0 or later: of the socket 5001 at the first server, and so on.
    pub(super) fn adds_stun(&mut self, now: u64, n: u8) -> bool {
        let local = socket(5000 + u16::from(n));
        self.servers.add_stun(at(now), local, server(n)).is_ok()
    }

    /// Adds such a TURN client without credentials.
    pub(super) fn adds(&mut self, alloc: Global, transport: Transport, n: u8) -> bool {
        self.add(alloc, transport, n).is_ok()
    }

    fn add(&mut self, alloc: Global, transport: Transport, n: u8) -> Result<(), AllocError> {
        let timing = match transport {
            Transport::Udp => ClientTiming::rfc(),
            Transport::Tcp => ClientTiming::reliable(),
        };
        let client = TurnClient::new(
            alloc,
            server(n),
            None,
            None,
            timing,
            600,
            4,
            DefaultSha1HmacProvider,
        )?;
        self.servers
            .add_turn(at(0), transport, socket(5000 + u16::from(n)), client)
    }

    /// Handles the timeout that is due; where its packet goes, if there is one.
    pub(super) fn sends_at(&mut self, now: u64) -> Option<ServerPacket> {
        self.servers.handle_timeout(at(now), &mut self.rng);
        self.servers.poll_transmit(&mut self.packet).unwrap_or(None)
    }

    pub(super) fn id(&self) -> TransId {
        let mut id = [0; 12];
        id.copy_from_slice(&self.packet[8..20]);
        TransId(id)
    }

    /// A server answers the last request, at 5 ms; whether that is for the agent.
    pub(super) fn answers(
        &mut self,
        transport: Transport,
        n: u8,
        message: StunMessage<'_>,
    ) -> bool {
        let mut buf = [0; 200];
        let local = socket(5000 + u16::from(n));
        match message.to_bytes(None, &mut buf, &DefaultSha1HmacProvider) {
            Ok(len) => self
                .servers
                .receive(at(5), transport, local, server(n), &buf[..len])
                .is_some(),
            Err(_) => true,
        }
    }

    /// Sends a request at time 0, which a server answers with an allocation; what is reported.
    pub(super) fn allocates(&mut self, transport: Transport, n: u8) -> Option<ServerEvent> {
        let _sent = self.sends_at(0);
        let message = Builder::new()
            .allocate()
            .success()
            .lifetime(600)
            .xor_relayed_address(server(50))
            .xor_mapped_address(server(77))
            .build(self.id());
        let _is_for_agent = self.answers(transport, n, message);
        self.servers.poll_event()
    }

    /// Whether a packet is sent over this transport when a timeout is handled.
    pub(super) fn sends_over(&mut self, now: u64, transport: Transport) -> bool {
        match self.sends_at(now) {
            Some(sent) => sent.transport == transport,
            None => false,
        }
    }

    /// Whether a packet of the client with this number is sent when a timeout is handled.
    pub(super) fn sends_from(&mut self, now: u64, n: u8) -> bool {
        match self.sends_at(now) {
            Some(sent) => sent.local == socket(5000 + u16::from(n)) && sent.server == server(n),
            None => false,
        }
    }

    /// Whether this is what is reported next.
    pub(super) fn reports(&mut self, event: Option<ServerEvent>) -> bool {
        self.servers.poll_event() == event
    }

    /// Whether the server makes an allocation.
    pub(super) fn is_allocated(&mut self, transport: Transport, n: u8) -> bool {
        match self.allocates(transport, n) {
            Some(event) => event.what == Happened::Allocated(allocation()),
            None => false,
        }
    }

    /// What is to be done with media of this source at 20 ms.
    pub(super) fn goes(&mut self, source: SocketAddr) -> Option<ServerOutgoing> {
        self.servers
            .outgoing(
                at(20),
                source,
                peer(),
                &MEDIA,
                &TransId([5; 12]),
                &mut self.packet,
            )
            .ok()
    }

    /// What is for the agent of bytes from a server at 30 ms.
    pub(super) fn is_left_of<'a>(
        &mut self,
        transport: Transport,
        n: u8,
        bytes: &'a [u8],
    ) -> Option<Datagram<'a>> {
        let local = socket(5000 + u16::from(n));
        self.servers
            .receive(at(30), transport, local, server(n), bytes)
    }
}
