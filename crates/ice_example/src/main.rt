//! Two agents in one program find a path to each other. Signaling is a function call, and each side's inbox stands for its socket.
#![tactic(auto)]

use is::stun::{StunMessage, StunPacket};
use is::{
    Candidate, DefaultSha1HmacProvider, IceAgent, IceAgentEvent, IceCreds, IceError, Instant,
    Protocol, SocketText, Transmit,
};
use rand_chacha::ChaCha20Rng;
use rand_core::{Rng, SeedableRng};
use std::alloc::Global;
use std::collections::VecDeque;
use std::io;
use std::net::{Ipv4Addr, SocketAddr, SocketAddrV4};
use std::random::RandomSource;

type Agent = IceAgent<DefaultSha1HmacProvider>;

/// One side: its agent, the received datagrams, and the path of its media.
#[derive(Drop)]
struct Side {
    agent: Box<Agent>,
    inbox: VecDeque<Transmit>,
    path: Option<(SocketAddr, SocketAddr)>,
}

/// What signaling carries to the peer: the credentials, and a line for each candidate.
#[derive(Drop)]
struct Signal {
    creds: IceCreds,
    lines: Vec<String>,
}

/// An agent with one socket, bound to this address, and its signal for the peer.
fn begin<R: Rng>(
    alloc: Global,
    address: SocketAddr,
    rng: &mut R,
) -> Result<(Side, Signal), IceError> {
    let creds = IceCreds::new(alloc, rng)?;
    // The tie-breaker: 64 random bits, drawn once.
    let mut agent = Box::new(alloc, Agent::new(alloc, creds.clone()?, rng.next_u64())?)?;
    let mut lines = Vec::new(alloc);
    let host = Candidate::host(alloc, address, Protocol::Udp)?;
    // The candidate that is returned has its priority. None: it is redundant.
    if let Some(added) = agent.add_local_candidate(host)? {
        lines.push(added.to_sdp_string(alloc)?)?;
    }
    let inbox = VecDeque::new(alloc);
    let path = None;
    Ok((Side { agent, inbox, path }, Signal { creds, lines }))
}

/// Takes the peer's signal: credentials before candidates.
fn learn(alloc: Global, agent: &mut Agent, signal: Signal) -> Result<(), IceError> {
    agent.set_remote_credentials(signal.creds)?;
    for line in &signal.lines {
        agent.add_remote_candidate(Candidate::from_sdp_string(alloc, line)?)?;
    }
    Ok(())
}

/// Passes a datagram to the agent. True: it was for the agent. False or an error: nothing changed.
fn receive(agent: &mut Agent, datagram: &Transmit, now: Instant) -> Result<bool, IceError> {
    // The message borrows its bytes. Bytes that do not parse are not STUN: media, or anything else.
    let Ok(message) = StunMessage::parse(&datagram.contents) else {
        return Ok(false);
    };
    let packet = StunPacket {
        proto: datagram.proto,
        source: datagram.source,
        destination: datagram.destination,
        message,
    };
    agent.handle_packet(now, packet)
}

/// One iteration of a side's loop. Returns when to call it next.
fn turn<R: Rng>(
    side: &mut Side,
    other: &mut Side,
    now: Instant,
    rng: &mut R,
) -> Result<Option<Instant>, IceError> {
    // 1. Received datagrams.
    while let Some(datagram) = side.inbox.pop_front() {
        receive(&mut side.agent, &datagram, now)?;
    }
    // 2. The time. The first call starts the session.
    side.agent.handle_timeout(now, rng)?;
    // 3. The next timeout, before packets are polled.
    let deadline = side.agent.poll_timeout();
    // 4. Packets to send, from packet.source to packet.destination.
    while let Some(packet) = side.agent.poll_transmit() {
        other.inbox.push_back(packet)?;
    }
    // 5. Events: the state, new sources, the path to send media on.
    while let Some(event) = side.agent.poll_event() {
        if let IceAgentEvent::NominatedSend {
            source,
            destination,
            ..
        } = event
        {
            side.path = Some((source, destination));
        }
    }
    Ok(deadline)
}

/// The path of the first side, once each side has one; None after 100 iterations.
fn connect<R: Rng>(
    a: &mut Side,
    b: &mut Side,
    rng: &mut R,
) -> Result<Option<(SocketAddr, SocketAddr)>, IceError> {
    // Nanoseconds from any start, beginning at 60 s.
    let mut now = Instant(60_000_000_000);
    for _ in 0..100 {
        let timeouts = (turn(a, b, now, rng)?, turn(b, a, now, rng)?);
        if b.path.is_some() && a.path.is_some() {
            return Ok(a.path);
        }
        if let (Some(one), Some(other)) = timeouts {
            now = one.min(other);
        }
    }
    Ok(None)
}

/// Two sides that exchange their signals, and the path between them.
fn meet<R: Rng>(alloc: Global, rng: &mut R) -> Result<Option<(SocketAddr, SocketAddr)>, IceError> {
    let (mut a, told_by_a) = begin(alloc, at(1, 1000), rng)?;
    let (mut b, told_by_b) = begin(alloc, at(2, 2000), rng)?;
    // The side that made the offer.
    a.agent.set_controlling(true);
    learn(alloc, &mut b.agent, told_by_a)?;
    learn(alloc, &mut a.agent, told_by_b)?;
    connect(&mut a, &mut b, rng)
}

/// The address 10.0.0.HOST:PORT.
fn at(host: u8, port: u16) -> SocketAddr {
    SocketAddr::V4(SocketAddrV4::new(Ipv4Addr::new(10, 0, 0, host), port))
}

fn main(rt: HostRuntime) -> io::Result<()> {
    // Passwords are drawn from it, so it must be unpredictable.
    let mut seed = [0; 32];
    rt.fill_bytes(&mut seed)?;
    let mut rng = ChaCha20Rng::from_seed(seed);
    match meet(rt.alloc(), &mut rng) {
        Ok(Some((source, destination))) => {
            let from = SocketText(source);
            let to = SocketText(destination);
            println!(rt; "media goes from {from} to {to}")
        }
        Ok(None) => println!(rt; "no path"),
        Err(rejection) => println!(rt; "refused: {rejection}"),
    }
}
