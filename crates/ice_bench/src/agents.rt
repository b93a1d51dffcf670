//! Agents: the cost of a request, of a response, and of a `handle_timeout` call with a check or without work, by the
//! number of pairs; the cost of local candidates, by their number.

use crate::checksum::Checksum;
use crate::messages::BROWSER_REQUEST;
use is_agent::{IceAgent, IceCreds};
use is_candidate::Candidate;
use is_proto::{DefaultSha1HmacProvider, Duration, IceError, Instant, Protocol, Text, Transmit};
use is_rules::settings::Settings;
use is_stun::stun::{Profile, StunMessage, StunPacket};
use rand_core::SeedableRng;
use rand_pcg::Pcg32;
use std::alloc::Global;
use std::net::{Ipv4Addr, SocketAddr, SocketAddrV4};

/// The agent that is measured.
pub type Agent = IceAgent<DefaultSha1HmacProvider>;

const PASSWORD: &str = "xJcE9AQAR7kczUDVOXRUCl";

const PEER_PASSWORD: &str = "VOkJxbRl1RmTxUk/WvJxBt";

/// When a case begins: late enough for a nominated pair to be due 60 s earlier than the others.
pub const START: Instant = Instant(60_000_000_000);

/// The port of the first of several addresses. The others have the ports after it.
const FIRST_PORT: u16 = 2000;

/// How long after the first checks no pair is checked early any more: 5 s.
const AFTER_EARLY: u64 = 5_000_000_000;

/// What happens in each round.
#[derive(Clone, Copy, Debug, PartialEq, Eq)]
pub enum Turn {
    /// The request of the last pair is parsed, passed to the agent and answered.
    Request,
    /// The response to the check of the last pair is parsed and passed to the agent.
    Answer,
    /// A `handle_timeout` call that checks a pair.
    Check,
    /// A `handle_timeout` call that has nothing to do.
    Idle,
}

/// What an agent does in each round, by which profile, and with how many pairs.
#[derive(Clone, Copy, Debug, PartialEq, Eq)]
pub struct Case {
    pub turn: Turn,
    pub profile: Profile,
    pub pairs: u16,
}

/// The case of this name. `modern_` before a name is the same with the profile `Modern`.
pub fn case_of(name: &str) -> Option<Case> {
    let (profile, name) = match name.strip_prefix("modern_") {
        Some(rest) => (Profile::Modern, rest),
        None => (Profile::Original, name),
    };
    let (turn, pairs) = turn_of(name)?;
    Some(Case {
        turn,
        profile,
        pairs,
    })
}

fn turn_of(name: &str) -> Option<(Turn, u16)> {
    let (word, pairs) = name.rsplit_once('_')?;
    let turn = match word {
        "request" => Turn::Request,
        "answer" => Turn::Answer,
        "check" => Turn::Check,
        "idle" => Turn::Idle,
        _ => return None,
    };
    let pairs = match pairs {
        "1" => 1,
        "10" => 10,
        "100" => 100,
        "1000" => 1000,
        "10000" => 10000,
        _ => return None,
    };
    Some((turn, pairs))
}

/// Each round makes an agent and adds so many host candidates to it.
pub fn host_candidates(
    alloc: Global,
    count: u16,
    rounds: u64,
    sum: &mut Checksum,
) -> Result<(), IceError> {
    for _ in 0..rounds {
        let mut agent = make(alloc)?;
        add_hosts(&mut agent, alloc, count, sum)?;
    }
    Ok(())
}

fn add_hosts(
    agent: &mut Agent,
    alloc: Global,
    count: u16,
    sum: &mut Checksum,
) -> Result<(), IceError> {
    for candidate in 0..count {
        let address = at(1, FIRST_PORT.saturating_add(candidate));
        let host = Candidate::host(alloc, address, Protocol::Udp)?;
        if let Some(added) = agent.add_local_candidate(host)? {
            sum.add(u64::from(added.prio()));
        }
    }
    Ok(())
}

/// Makes an agent with so many pairs, and then runs so many rounds. Only this function, `host_candidates` and `flood` own
/// an agent; the others borrow it.
pub fn turns(alloc: Global, case: Case, rounds: u64, sum: &mut Checksum) -> Result<(), IceError> {
    let mut agent = make(alloc)?;
    set_profile(&mut agent, case.profile);
    set_up(&mut agent, alloc, case.pairs)?;
    take_turns(&mut agent, case, rounds, sum)
}

/// The settings of the profile, without a limit on candidates: each pair has a remote one of its own.
pub fn set_profile(agent: &mut Agent, profile: Profile) {
    if profile == Profile::Modern {
        let mut settings = Settings::modern();
        settings.max_discovered = None;
        settings.max_candidates = None;
        agent.set_settings(settings);
    }
}

/// A new agent, for which the request is.
pub fn make(alloc: Global) -> Result<Box<Agent>, IceError> {
    let agent = Agent::new(alloc, creds(alloc, "p9KA", PASSWORD)?, 1)?;
    Ok(Box::new(alloc, agent)?)
}

/// Sets up the agent that the request is for, at 10.0.0.1:1000, with so many pairs.
fn set_up(agent: &mut Agent, alloc: Global, pairs: u16) -> Result<(), IceError> {
    agent.set_max_candidate_pairs(usize::from(pairs.max(100)));
    introduce(agent, alloc)?;
    meet(agent, pairs)
}

/// The agent has its local candidate, and knows the peer.
pub fn introduce(agent: &mut Agent, alloc: Global) -> Result<(), IceError> {
    agent.set_remote_credentials(creds(alloc, "SQAt", PEER_PASSWORD)?)?;
    let _ = agent.add_local_candidate(Candidate::host(alloc, at(1, 1000), Protocol::Udp)?)?;
    Ok(())
}

/// A request arrives from each of so many ports of 10.0.0.2, so the agent has a pair for each.
fn meet(agent: &mut Agent, pairs: u16) -> Result<(), IceError> {
    let mut unused = Checksum(0);
    for pair in 0..pairs {
        take(agent, FIRST_PORT.saturating_add(pair), &BROWSER_REQUEST)?;
        poll(agent, &mut unused);
    }
    Ok(())
}

fn take_turns(
    agent: &mut Agent,
    case: Case,
    rounds: u64,
    sum: &mut Checksum,
) -> Result<(), IceError> {
    match case.turn {
        Turn::Request => requests(agent, case.pairs, rounds, sum),
        Turn::Answer => answers(agent, case.pairs, rounds, sum),
        Turn::Check => {
            let first = first_round(agent, case)?;
            checks(agent, first, rounds, sum)
        }
        Turn::Idle => idle_timeouts(agent, case.pairs, rounds, sum),
    }
}

/// When the rounds with a check begin. With `Modern` that is after the early retransmissions, which wait 100 ms and more, so each pair
/// has its first check before.
fn first_round(agent: &mut Agent, case: Case) -> Result<Instant, IceError> {
    if case.profile == Profile::Original {
        return Ok(START);
    }
    let _ = check_each(agent, case.pairs)?;
    Ok(Instant(START.0.saturating_add(AFTER_EARLY)))
}

fn requests(
    agent: &mut Agent,
    pairs: u16,
    rounds: u64,
    sum: &mut Checksum,
) -> Result<(), IceError> {
    for _ in 0..rounds {
        take(agent, port_of(pairs), &BROWSER_REQUEST)?;
        poll(agent, sum);
    }
    Ok(())
}

fn answers(agent: &mut Agent, pairs: u16, rounds: u64, sum: &mut Checksum) -> Result<(), IceError> {
    let mut buf = [0; 128];
    let answer = answer_to(&check_each(agent, pairs)?, &mut buf);
    for _ in 0..rounds {
        sum.add(u64::from(take(agent, port_of(pairs), answer)?));
        poll(agent, sum);
    }
    Ok(())
}

fn checks(
    agent: &mut Agent,
    first: Instant,
    rounds: u64,
    sum: &mut Checksum,
) -> Result<(), IceError> {
    // a checked pair is due again at once, and the peer's last packet is too recent for the pair to be removed
    agent.set_initial_stun_rto(Duration(0));
    let mut rng = Pcg32::seed_from_u64(1);
    for round in 0..rounds {
        report_on(agent, Instant(first.0.saturating_add(round)), &mut rng)?;
        poll(agent, sum);
    }
    Ok(())
}

fn idle_timeouts(
    agent: &mut Agent,
    pairs: u16,
    rounds: u64,
    sum: &mut Checksum,
) -> Result<(), IceError> {
    let _ = check_each(agent, pairs)?;
    let mut rng = Pcg32::seed_from_u64(1);
    for _ in 0..rounds {
        report_on(agent, START, &mut rng)?;
        sum.add(deadline(agent));
    }
    Ok(())
}

/// Checks each of so many pairs once. Returns the last check.
fn check_each(agent: &mut Agent, pairs: u16) -> Result<Option<Transmit>, IceError> {
    let mut rng = Pcg32::seed_from_u64(1);
    let mut last = None;
    for _ in 0..pairs {
        report_on(agent, START, &mut rng)?;
        last = packet_of(agent);
    }
    Ok(last)
}

/// The signed response to the check; empty if there is none.
fn answer_to<'a>(check: &Option<Transmit>, buf: &'a mut [u8; 128]) -> &'a [u8] {
    let Some(check) = check else { return &[] };
    let Ok(message) = StunMessage::parse(&check.contents) else {
        return &[];
    };
    let reply = StunMessage::binding_reply(message.trans_id(), check.source);
    let password = PEER_PASSWORD.as_bytes();
    match reply.to_bytes(Some(password), buf, &DefaultSha1HmacProvider) {
        Ok(len) => buf.get(..len).unwrap_or(&[]),
        Err(_) => &[],
    }
}

fn creds(alloc: Global, ufrag: &str, pass: &str) -> Result<IceCreds, IceError> {
    Ok(IceCreds {
        ufrag: Text::from_str(alloc, ufrag)?,
        pass: Text::from_str(alloc, pass)?,
    })
}

/// An address of the network 10.0.0.0/24.
pub fn at(host: u8, port: u16) -> SocketAddr {
    SocketAddr::V4(SocketAddrV4::new(Ipv4Addr::new(10, 0, 0, host), port))
}

/// The port of the last of so many pairs.
fn port_of(pairs: u16) -> u16 {
    FIRST_PORT.saturating_add(pairs.saturating_sub(1))
}

// ---- the calls, without their contracts

/// The bytes arrive from this port of 10.0.0.2. Returns whether they were for the agent.
fn take(agent: &mut Agent, port: u16, bytes: &[u8]) -> Result<bool, IceError> {
    take_from(agent, START, at(2, port), bytes)
}

/// The bytes arrive at this time from this address.
pub fn take_from(
    agent: &mut Agent,
    now: Instant,
    source: SocketAddr,
    bytes: &[u8],
) -> Result<bool, IceError> {
    let Ok(message) = StunMessage::parse(bytes) else {
        return Ok(false);
    };
    let packet = StunPacket {
        proto: Protocol::Udp,
        source,
        destination: at(1, 1000),
        message,
    };
    agent.handle_packet(now, packet)
}

/// Calls `handle_timeout` of the agent at this time.
pub fn report_on(agent: &mut Agent, now: Instant, rng: &mut Pcg32) -> Result<(), IceError> {
    agent.handle_timeout(now, rng)
}

fn packet_of(agent: &mut Agent) -> Option<Transmit> {
    agent.poll_transmit()
}

/// Adds the next packet, if there is one, and whether there is an event.
pub fn poll(agent: &mut Agent, sum: &mut Checksum) {
    if let Some(packet) = agent.poll_transmit() {
        sum.add_bytes(&packet.contents);
    }
    sum.add(u64::from(agent.poll_event().is_some()));
}

/// The next timeout.
fn deadline(agent: &mut Agent) -> u64 {
    match agent.poll_timeout() {
        Some(at) => at.0,
        None => 0,
    }
}
