//! Pairs of many candidates, formed again.

use crate::agents::{Agent, at, introduce, make, set_profile};
use crate::checksum::Checksum;
use is_candidate::Candidate;
use is_proto::{IceError, Protocol};
use is_stun::stun::Profile;
use std::alloc::Global;

/// The port of the first candidate. The others have the ports after it.
const FIRST_PORT: u16 = 2000;

/// An agent has so many host candidates, and knows as many of the peer.
#[derive(Clone, Copy, Debug, PartialEq, Eq)]
pub struct Case {
    pub profile: Profile,
    pub candidates: u16,
}

/// The case of this name. `modern_` before a name is the same with the profile `Modern`.
pub fn case_of(name: &str) -> Option<Case> {
    let (profile, candidates) = match name {
        "recreate_10" => (Profile::Original, 10),
        "recreate_100" => (Profile::Original, 100),
        "modern_recreate_10" => (Profile::Modern, 10),
        "modern_recreate_100" => (Profile::Modern, 100),
        _ => return None,
    };
    Some(Case {
        profile,
        candidates,
    })
}

/// Each round forms all pairs again, of which 100 stay. Only this function owns the agent.
pub fn recreate(
    alloc: Global,
    case: Case,
    rounds: u64,
    sum: &mut Checksum,
) -> Result<(), IceError> {
    let mut agent = make(alloc)?;
    set_profile(&mut agent, case.profile);
    introduce(&mut agent, alloc)?;
    know(&mut agent, alloc, case.candidates)?;
    form_again(&mut agent, rounds, sum)
}

fn form_again(agent: &mut Agent, rounds: u64, sum: &mut Checksum) -> Result<(), IceError> {
    for _ in 0..rounds {
        agent.recreate_candidate_pairs()?;
        add_pairs(agent, sum);
    }
    Ok(())
}

/// Adds so many candidates of either side.
fn know(agent: &mut Agent, alloc: Global, candidates: u16) -> Result<(), IceError> {
    for candidate in 0..candidates {
        let port = FIRST_PORT.saturating_add(candidate);
        let ours = Candidate::host(alloc, at(3, port), Protocol::Udp)?;
        let _ = agent.add_local_candidate(ours)?;
        let theirs = Candidate::host(alloc, at(4, port), Protocol::Udp)?;
        agent.add_remote_candidate(theirs)?;
    }
    Ok(())
}

/// Adds the priorities of the pairs.
fn add_pairs(agent: &Agent, sum: &mut Checksum) {
    for place in 0..agent.candidate_pair_count() {
        if let Some(pair) = agent.candidate_pair(place) {
            sum.add(pair.prio());
        }
    }
}
