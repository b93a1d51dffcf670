//! The two agents of the stories: their addresses, their credentials, and the ids of their transactions.
use is::stun::TransId;
use is::{IceCreds, Instant, Path, Protocol, Side, SocketText, Text};
use rand_core::SeedableRng;
use rand_pcg::Pcg32;
use std::alloc::{AllocError, Global};
use std::net::{Ipv4Addr, SocketAddr, SocketAddrV4};

/// The nanoseconds of a millisecond.
pub const MS: u64 = 1_000_000;

/// How many ids are tried to find the number of a transaction.
const TRANSACTIONS: usize = 500;

/// The random source of an agent of each story, new.
pub fn random(side: Side) -> Pcg32 {
    match side {
        Side::A => Pcg32::seed_from_u64(1),
        Side::B => Pcg32::seed_from_u64(2),
    }
}

fn at(host: u8, port: u16) -> SocketAddr {
    SocketAddr::V4(SocketAddrV4::new(Ipv4Addr::new(10, 0, 0, host), port))
}

/// The address of the side's host candidate.
pub fn home(side: Side) -> SocketAddr {
    match side {
        Side::A => at(1, 1000),
        Side::B => at(2, 2000),
    }
}

pub fn other(side: Side) -> Side {
    match side {
        Side::A => Side::B,
        Side::B => Side::A,
    }
}

/// The path between the two host candidates, from the side.
pub fn path_of(side: Side) -> Path {
    Path {
        proto: Protocol::Udp,
        source: home(side),
        destination: home(other(side)),
    }
}

/// The path in the other direction.
pub fn back(path: Path) -> Path {
    Path {
        proto: path.proto,
        source: path.destination,
        destination: path.source,
    }
}

pub fn password(side: Side) -> &'static str {
    match side {
        Side::A => "nearpass",
        Side::B => "farpass",
    }
}

pub fn ufrag(side: Side) -> &'static str {
    match side {
        Side::A => "near",
        Side::B => "farr",
    }
}

/// Credentials, given as `UFRAG` with the side's password, or as `UFRAG/PASSWORD`.
pub fn creds(alloc: Global, side: Side, text: &str) -> Result<IceCreds, AllocError> {
    let (ufrag, pass) = match text.split_once('/') {
        Some((ufrag, pass)) => (ufrag, pass),
        None => (text, password(side)),
    };
    Ok(IceCreds {
        ufrag: Text::from_str(alloc, ufrag)?,
        pass: Text::from_str(alloc, pass)?,
    })
}

pub fn time(ms: u64) -> Instant {
    Instant(ms.saturating_mul(MS))
}

pub fn side_of(word: &str) -> Option<Side> {
    match word {
        "A" => Some(Side::A),
        "B" => Some(Side::B),
        _ => None,
    }
}

/// The name of an address: `A` and `B` are the host candidates.
pub fn address_of(word: &str) -> Option<SocketAddr> {
    match side_of(word) {
        Some(side) => Some(home(side)),
        None => match SocketText::from_text(word) {
            Some(SocketText(address)) => Some(address),
            None => None,
        },
    }
}

/// The id of A's check of this number, counted from 0: each draws the next twelve bytes.
pub fn check_id(number: usize) -> TransId {
    let mut random = random(Side::A);
    let mut id = TransId::new(&mut random);
    for _ in 0..number {
        id = TransId::new(&mut random);
    }
    id
}

/// The number of the agent's check with this id, counted from 0 for each agent.
pub fn check_number(id: TransId) -> Option<usize> {
    let (mut a, mut b) = (random(Side::A), random(Side::B));
    for number in 0..TRANSACTIONS {
        if TransId::new(&mut a) == id || TransId::new(&mut b) == id {
            return Some(number);
        }
    }
    None
}

/// The id of a request that a story writes for B.
pub fn request_id(number: u8) -> TransId {
    TransId([number; 12])
}
