//! The words of a story. Each is one event: a call of an agent, or a packet that is sent or received. docs/SCRIPTS.md lists them.
use crate::messages::packet;
use crate::names::{MS, address_of, back, creds, home, other, path_of, side_of, time, ufrag};
use is::{AgentCall, Call, Candidate, Duration, Path, Profile, Protocol, Side, WorldEvent};
use std::alloc::Global;
use std::net::SocketAddr;

/// A packet that was sent arrives.
#[derive(Clone, Copy)]
struct Arrival {
    packet: usize,
    ms: u64,
    way: Path,
}

/// What follows the `@` of a word, as `50` or `50;from=10.0.0.3:3000;to=A`: a time, and where the path is not the usual one.
fn time_and_path(text: &str, usual: Path) -> Option<(u64, Path)> {
    let mut way = usual;
    let mut ms = None;
    for part in text.split(';') {
        match part.split_once('=') {
            Some((name, address)) => {
                let address = address_of(address)?;
                if name == "from" {
                    way.source = address;
                } else {
                    way.destination = address;
                }
            }
            None => ms = part.parse::<u64>().ok(),
        }
    }
    match ms {
        Some(ms) => Some((ms, way)),
        None => None,
    }
}

fn host(alloc: Global, address: SocketAddr) -> Option<Candidate> {
    Candidate::host(alloc, address, Protocol::Udp).ok()
}

/// The addresses of `ADDRESS/BASE`.
fn based(text: &str) -> Option<(SocketAddr, SocketAddr)> {
    let (address, base) = text.split_once('/')?;
    Some((address_of(address)?, address_of(base)?))
}

fn reflexive(alloc: Global, text: &str) -> Option<Candidate> {
    let (address, base) = based(text)?;
    Candidate::server_reflexive(alloc, address, base, Protocol::Udp).ok()
}

fn relayed(alloc: Global, text: &str) -> Option<Candidate> {
    let (address, base) = based(text)?;
    Candidate::relayed(alloc, address, base, Protocol::Udp).ok()
}

fn profile(text: &str) -> Option<Profile> {
    match text {
        "original" => Some(Profile::Original),
        "modern" => Some(Profile::Modern),
        _ => None,
    }
}

/// The candidate that a line `candidate WORD TEXT` of the file defines.
fn defined(alloc: Global, file: &str, word: &str) -> Option<Candidate> {
    for line in file.lines() {
        if let Some(rest) = line.strip_prefix("candidate ") {
            match rest.split_once(' ') {
                Some((name, text)) if name == word => {
                    return Candidate::from_sdp_string(alloc, text).ok();
                }
                _ => {}
            }
        }
    }
    None
}

/// The call of a name without a value.
fn plain_call(alloc: Global, side: Side, name: &str) -> Option<Call> {
    match name {
        "controlling" => Some(AgentCall::SetControlling(true)),
        "lite" => Some(AgentCall::SetIceLite(true)),
        "renomination" => Some(AgentCall::SetRenomination(true)),
        "recreate" => Some(AgentCall::RecreateCandidatePairs),
        "remote" => call_with(alloc, side, name, ufrag(other(side))),
        "host" => Some(AgentCall::AddLocalCandidate(host(alloc, home(side))?)),
        "peer" => Some(AgentCall::AddRemoteCandidate(host(alloc, home(other(side)))?)),
        "restart" => Some(AgentCall::RestartIce {
            creds: creds(alloc, side, ufrag(side)).ok()?,
            keep: true,
        }),
        _ => None,
    }
}

fn count(text: &str) -> Option<usize> {
    text.parse::<usize>().ok()
}

/// The call of a name with a value.
fn call_with(alloc: Global, side: Side, name: &str, value: &str) -> Option<Call> {
    match name {
        "tie" => Some(AgentCall::SetControlTieBreaker(value.parse::<u64>().ok()?)),
        "renomination" => Some(AgentCall::SetRenomination(value == "on")),
        "profile" => Some(AgentCall::SetProfile(profile(value)?)),
        "advance" => Some(AgentCall::SetTimingAdvance(Duration(
            value.parse::<u64>().ok()?.saturating_mul(MS),
        ))),
        "pairs" => Some(AgentCall::SetMaxCandidatePairs(count(value)?)),
        "discovered" => Some(AgentCall::SetMaxDiscovered(Some(count(value)?))),
        "candidates" => Some(AgentCall::SetMaxCandidates(Some(count(value)?))),
        "retransmits" => Some(AgentCall::SetMaxStunRetransmits(count(value)?)),
        "named" => Some(AgentCall::SetLocalCredentials(creds(alloc, side, value).ok()?)),
        "remote" => {
            let creds = creds(alloc, other(side), value).ok()?;
            Some(AgentCall::SetRemoteCredentials(creds))
        }
        "host" => Some(AgentCall::AddLocalCandidate(host(alloc, address_of(value)?)?)),
        "srflx" => Some(AgentCall::AddLocalCandidate(reflexive(alloc, value)?)),
        "relay" => Some(AgentCall::AddLocalCandidate(relayed(alloc, value)?)),
        "peer" => Some(AgentCall::AddRemoteCandidate(host(alloc, address_of(value)?)?)),
        _ => None,
    }
}

/// The call of `A.NAME` or `A.NAME=VALUE`.
fn named_call(alloc: Global, file: &str, side: Side, word: &str, name: &str) -> Option<Call> {
    if let Some((name, value)) = name.split_once('=') {
        return call_with(alloc, side, name, value);
    }
    match plain_call(alloc, side, name) {
        Some(call) => Some(call),
        None => Some(AgentCall::AddRemoteCandidate(defined(alloc, file, word)?)),
    }
}

/// `A@50` is a `handle_timeout` call; `success.0@50` a packet that the story writes for B, and that A receives.
fn timed_call(alloc: Global, who: &str, rest: &str) -> Option<(Side, Call)> {
    if let Some(side) = side_of(who) {
        let ms = rest.parse::<u64>().ok()?;
        return Some((side, AgentCall::HandleTimeout(time(ms))));
    }
    let (ms, way) = time_and_path(rest, path_of(Side::B))?;
    Some((
        Side::A,
        AgentCall::Packet {
            now: time(ms),
            proto: way.proto,
            source: way.source,
            destination: way.destination,
            bytes: packet(alloc, who)?,
        },
    ))
}

/// The call of a word, and who makes it.
pub fn call_of(alloc: Global, file: &str, word: &str) -> Option<(Side, Call)> {
    if let Some((who, rest)) = word.split_once('@') {
        return timed_call(alloc, who, rest);
    }
    if let Some((who, name)) = word.split_once('.') {
        let side = side_of(who)?;
        return Some((side, named_call(alloc, file, side, word, name)?));
    }
    match word {
        "A>" => Some((Side::A, AgentCall::PollTransmit)),
        "A?" => Some((Side::A, AgentCall::PollTimeout)),
        "B?" => Some((Side::B, AgentCall::PollTimeout)),
        "A!" => Some((Side::A, AgentCall::PollEvent)),
        "B!" => Some((Side::B, AgentCall::PollEvent)),
        _ => None,
    }
}

/// Packet 0 of the other agent arrives at B in `B<0@10`.
fn arrival_of(word: &str) -> Option<Arrival> {
    let (who, rest) = word.split_once('<')?;
    let (packet, rest) = rest.split_once('@')?;
    let (ms, way) = time_and_path(rest, back(path_of(side_of(who)?)))?;
    Some(Arrival {
        packet: count(packet)?,
        ms,
        way,
    })
}

/// The event of an arrival between two agents.
fn delivery(arrival: Arrival) -> WorldEvent {
    WorldEvent::Deliver {
        packet: arrival.packet,
        now: time(arrival.ms),
        proto: arrival.way.proto,
        source: arrival.way.source,
        destination: arrival.way.destination,
    }
}

/// The event of a packet that comes from elsewhere, and not from the other agent.
fn stray(side: Side, call: Call) -> Option<WorldEvent> {
    match call {
        AgentCall::Packet {
            now,
            proto,
            source,
            destination,
            bytes,
        } => Some(WorldEvent::Stray {
            side,
            now,
            proto,
            source,
            destination,
            bytes,
        }),
        _ => None,
    }
}

/// The event of a word, between two agents. `~garbage.0@5` is a packet that comes from elsewhere.
pub fn event_of(alloc: Global, file: &str, word: &str) -> Option<WorldEvent> {
    match word {
        "A>" => return Some(WorldEvent::Poll(Side::A)),
        "B>" => return Some(WorldEvent::Poll(Side::B)),
        _ => {}
    }
    if let Some(word) = word.strip_prefix('~') {
        let (side, call) = call_of(alloc, file, word)?;
        return stray(side, call);
    }
    if let Some(arrival) = arrival_of(word) {
        return Some(delivery(arrival));
    }
    let (side, call) = call_of(alloc, file, word)?;
    Some(WorldEvent::Call(side, call))
}
