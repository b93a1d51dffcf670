//! A flood: a request arrives from a new address in each round, and the agent has a limit on what requests bring.

use crate::agents::{Agent, START, at, introduce, make, poll, report_on, take_from};
use crate::checksum::Checksum;
use crate::messages::BROWSER_REQUEST;
use is_proto::{IceError, Instant};
use rand_core::SeedableRng;
use rand_pcg::Pcg32;
use std::alloc::Global;
use std::net::SocketAddr;

/// How many remote candidates the requests may bring.
const LIMIT: usize = 32;

/// A request arrives each millisecond.
const INTERVAL: u64 = 1_000_000;

/// `handle_timeout` is called after as many requests: each 50 ms.
const PACING: u64 = 50;

/// How many ports of an address send, from `FIRST_PORT` on.
const PORTS: u64 = 50_000;

const FIRST_PORT: u16 = 2000;

/// How many requests come before the rounds of the case with this name.
pub fn case_of(name: &str) -> Option<u64> {
    match name {
        "flood_0" => Some(0),
        "flood_99000" => Some(99_000),
        _ => None,
    }
}

/// An agent takes so many requests, and then one in each of so many rounds, all from different addresses.
pub fn flood(alloc: Global, before: u64, rounds: u64, sum: &mut Checksum) -> Result<(), IceError> {
    let mut agent = make(alloc)?;
    introduce(&mut agent, alloc)?;
    agent.set_max_discovered(Some(LIMIT));
    let mut unused = Checksum(0);
    let mut rng = Pcg32::seed_from_u64(1);
    take_requests(&mut agent, 0, before, &mut rng, &mut unused)?;
    take_requests(&mut agent, before, rounds, &mut rng, sum)
}

/// So many requests arrive, the first of them with this number.
fn take_requests(
    agent: &mut Agent,
    first: u64,
    count: u64,
    rng: &mut Pcg32,
    sum: &mut Checksum,
) -> Result<(), IceError> {
    for request in first..first.saturating_add(count) {
        let now = Instant(START.0.saturating_add(request.saturating_mul(INTERVAL)));
        sum.add(u64::from(take_from(agent, now, source_of(request), &BROWSER_REQUEST)?));
        if request % PACING == 0 {
            report_on(agent, now, rng)?;
        }
        poll(agent, sum);
    }
    Ok(())
}

/// The address from which this request comes. No two of the first 200 * `PORTS` are the same.
fn source_of(request: u64) -> SocketAddr {
    let host = (2 + request / PORTS % 200) as u8;
    at(host, FIRST_PORT.saturating_add((request % PORTS) as u16))
}
