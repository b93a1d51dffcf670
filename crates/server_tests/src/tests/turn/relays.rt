//! The TURN clients of a program: each datagram is for one of them, or for the agent.

use super::side::{address, allocation, at};
use is_proto::DefaultSha1HmacProvider;
use is_stun::channel_data::read_channel_data;
use is_stun::stun::*;
use is_turn::{
    ClientTiming, Datagram, Ending, Outbound, Outgoing, Relays, TurnClient, TurnEvent, Why,
    write_send,
};
use rand_core::SeedableRng;
use rand_pcg::Pcg32;
use std::alloc::{AllocError, Global};
use std::net::{Ipv4Addr, SocketAddr, SocketAddrV4};
use std::test::*;

const MEDIA: [u8; 3] = [0x80, 1, 2];

fn socket(port: u16) -> SocketAddr {
    SocketAddr::V4(SocketAddrV4::new(Ipv4Addr::new(10, 0, 0, 1), port))
}

fn peer(last: u8) -> SocketAddr {
    SocketAddr::V4(SocketAddrV4::new(Ipv4Addr::new(203, 0, 113, last), 1000))
}

/// A program with relays, its random source, and the last packet that they sent.
#[derive(Drop)]
struct Program {
    relays: Relays<DefaultSha1HmacProvider>,
    rng: Pcg32,
    packet: [u8; 200],
}

impl Program {
    /// A client on each of two sockets, at two servers, neither with credentials.
    fn new(alloc: Global) -> Result<Program, AllocError> {
        let mut program = Program {
            relays: Relays::new(alloc),
            rng: Pcg32::seed_from_u64(3),
            packet: [0; 200],
        };
        let _first = program.add(alloc, 0, 1)?;
        let _second = program.add(alloc, 10, 2)?;
        Ok(program)
    }

    fn add(&mut self, alloc: Global, now: u64, n: u8) -> Result<usize, AllocError> {
        let client = TurnClient::new(
            alloc,
            address(n),
            None,
            None,
            ClientTiming::rfc(),
            600,
            4,
            DefaultSha1HmacProvider,
        )?;
        self.relays
            .add(at(now), socket(5000 + u16::from(n)), client)
    }

    /// Handles the timeout that is due, at this time; where its packet goes, if there is one.
    fn sends_at(&mut self, now: u64) -> Option<(SocketAddr, SocketAddr)> {
        self.relays.handle_timeout(at(now), &mut self.rng);
        match self.relays.poll_transmit(&mut self.packet) {
            Ok(Some(Outbound { local, server, .. })) => Some((local, server)),
            _ => None,
        }
    }

    /// The server with this number answers the last request; what is for the agent of that.
    fn is_for_agent(&mut self, now: u64, n: u8, message: StunMessage<'_>) -> bool {
        let mut buf = [0; 200];
        match message.to_bytes(None, &mut buf, &DefaultSha1HmacProvider) {
            Ok(len) => self
                .relays
                .receive(
                    at(now),
                    socket(5000 + u16::from(n)),
                    address(n),
                    &buf[..len],
                )
                .is_some(),
            Err(_) => true,
        }
    }

    fn id(&self) -> TransId {
        let mut id = [0; 12];
        id.copy_from_slice(&self.packet[8..20]);
        TransId(id)
    }

    /// The first server makes an allocation; whether the program gets the event.
    fn allocates(&mut self) -> bool {
        let _sent = self.sends_at(0);
        let message = Builder::new()
            .allocate()
            .success()
            .lifetime(600)
            .xor_relayed_address(address(50))
            .xor_mapped_address(address(77))
            .build(self.id());
        !self.is_for_agent(5, 1, message)
            && self.relays.poll_event() == Some((0, TurnEvent::Allocated(allocation())))
    }

    /// What is to be done with a packet at 20 ms.
    fn goes(&mut self, source: SocketAddr, to: SocketAddr) -> Option<Outgoing> {
        let id = TransId([5; 12]);
        self.relays
            .outgoing(at(20), source, to, &MEDIA, &id, &mut self.packet)
            .ok()
    }
}

/// The client whose time comes first sends, from its socket to its server.
#[test]
fn the_earliest_client_sends(rt: HostRuntime) -> Result<(), AllocError> {
    let mut program = Program::new(rt.alloc())?;
    assert!(rt;
        program.relays.poll_timeout() == Some(at(0))
            && program.sends_at(0) == Some((socket(5001), address(1)))
            && program.relays.poll_timeout() == Some(at(10))
            && program.sends_at(5).is_none()
            && program.sends_at(10) == Some((socket(5002), address(2)))
            && program.relays.poll_timeout() == Some(at(500))
    );
    Ok(())
}

/// Whether media from the source to the first socket is the agent's, as it is.
fn is_left(program: &mut Program, source: SocketAddr) -> bool {
    let left = Datagram {
        source,
        destination: socket(5001),
        contents: &MEDIA,
    };
    program.relays.receive(at(20), socket(5001), source, &MEDIA) == Some(left)
}

/// A datagram of no client's server, or of a server at another socket, is the agent's, as it is.
#[test]
fn other_datagrams_are_the_agents(rt: HostRuntime) -> Result<(), AllocError> {
    let mut program = Program::new(rt.alloc())?;
    assert!(rt; program.allocates());
    assert!(rt; is_left(&mut program, peer(1)) && is_left(&mut program, address(2)));
    assert!(rt;
        program
            .relays
            .receive(at(20), socket(5002), address(2), &MEDIA)
            .is_none()
    );
    Ok(())
}

/// Whether media of the relayed address goes through the first server.
fn goes_through(program: &mut Program) -> bool {
    match program.goes(address(50), peer(1)) {
        Some(Outgoing::Through(out)) => out.local == socket(5001) && out.server == address(1),
        _ => false,
    }
}

/// Whether a Data indication of the first server is left as data of the peer.
fn leaves_data(program: &mut Program) -> bool {
    let mut buf = [0; 100];
    match write_send(peer(1), &MEDIA, &TransId([7; 12]), &mut buf) {
        Ok(len) if len <= 100 => {
            buf[1] = 0x17;
            let left = Datagram {
                source: peer(1),
                destination: address(50),
                contents: &MEDIA,
            };
            let given = program
                .relays
                .receive(at(30), socket(5001), address(1), &buf[..len]);
            given == Some(left)
        }
        _ => false,
    }
}

/// What goes from the relayed address goes through the server, and what comes to it comes from the peer.
#[test]
fn data_goes_through_the_relay(rt: HostRuntime) -> Result<(), AllocError> {
    let mut program = Program::new(rt.alloc())?;
    assert!(rt;
        program.allocates() && program.goes(socket(5001), peer(1)) == Some(Outgoing::AsItIs)
    );
    assert!(rt; goes_through(&mut program) && program.packet[1] == 0x16);
    assert!(rt; leaves_data(&mut program));
    Ok(())
}

/// Whether timeouts of up to 55 ms send the request that binds a channel.
fn sends_bind(program: &mut Program) -> bool {
    for now in [20, 25, 30, 35, 40, 45, 50, 55] {
        if program.packet[1] != 9 {
            let _sent = program.sends_at(now);
        }
    }
    program.packet[1] == 9
}

/// Whether the server's success response to that is no datagram of the agent.
fn is_bound(program: &mut Program) -> bool {
    let bound = Builder::new().channel_bind().success().build(program.id());
    !program.is_for_agent(60, 1, bound)
}

/// Whether media goes over the first channel.
fn goes_over_channel(program: &mut Program) -> bool {
    match program.goes(address(50), peer(1)) {
        Some(Outgoing::Through(out)) => {
            out.len == 7
                && matches!(read_channel_data(&program.packet[..7]), Some((0x4001, contents)) if contents == MEDIA.as_slice())
        }
        _ => false,
    }
}

/// Once its channel is bound, media goes with four bytes more.
#[test]
fn media_goes_over_a_channel(rt: HostRuntime) -> Result<(), AllocError> {
    let mut program = Program::new(rt.alloc())?;
    assert!(rt; program.allocates() && program.goes(address(50), peer(1)).is_some());
    assert!(rt; sends_bind(&mut program) && is_bound(&mut program));
    assert!(rt; goes_over_channel(&mut program));
    Ok(())
}

/// What happens to the first client from 10 ms on, until it is reported: it is closed, and the response to its last request is lost.
fn closes(program: &mut Program) -> Option<(usize, TurnEvent)> {
    program.relays.close(at(10), 0);
    let _sent = program.sends_at(10);
    let _other = program.sends_at(15);
    let freed = Builder::new()
        .refresh()
        .success()
        .lifetime(0)
        .build(TransId([0; 12]));
    if program.is_for_agent(18, 1, freed) {
        return None;
    }
    let mut event = program.relays.poll_event();
    for step in 10..400 {
        if event.is_none() {
            let _sent = program.sends_at(50 * step);
            event = program.relays.poll_event();
        }
    }
    event
}

/// Whether a client with this number is added with this index.
fn adds_at(program: &mut Program, alloc: Global, now: u64, n: u8, index: usize) -> bool {
    match program.add(alloc, now, n) {
        Ok(added) => added == index,
        Err(_) => false,
    }
}

/// A client that ended lets nothing go, and its index is given again once its `Ended` was polled.
#[test]
fn the_index_of_an_ended_client_is_given_again(rt: HostRuntime) -> Result<(), AllocError> {
    let mut program = Program::new(rt.alloc())?;
    let ending = Ending {
        why: Why::Closed,
        code: None,
        unverified: None,
    };
    assert!(rt; program.allocates() && closes(&mut program) == Some((0, TurnEvent::Ended(ending))));
    assert!(rt; program.goes(address(50), peer(1)) == Some(Outgoing::Nowhere));
    let now = 20_000;
    assert!(rt;
        adds_at(&mut program, rt.alloc(), now, 3, 0) && adds_at(&mut program, rt.alloc(), now, 4, 2)
    );
    assert!(rt; program.relays.poll_timeout() <= Some(at(now)));
    Ok(())
}
