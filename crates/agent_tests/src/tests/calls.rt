//! The calls of an agent, and their outcomes.

use super::driver::Player;
use super::making::{creds, generator, greatest, host, later, long, numbered, parsed};
use super::sent::is_on;
use super::step::{At, Call, Outcome, Whose};
use super::zeros::Zeros;
use super::*;

/// What became of a call.
fn outcome_of(answer: Result<(), IceError>) -> Outcome {
    match answer {
        Ok(()) => Outcome::Done,
        Err(error) => outcome(&error),
    }
}

/// The outcome of a call that fails so.
fn outcome(error: &IceError) -> Outcome {
    match error {
        IceError::PairIdsExhausted => Outcome::PairIdsExhausted,
        IceError::MtuTooSmall => Outcome::MtuTooSmall,
        IceError::CredentialsTooLong => Outcome::CredentialsTooLong,
        IceError::PriorityTooHigh => Outcome::PriorityTooHigh,
        _ => Outcome::Other,
    }
}

/// Done if it is so.
fn done_if(holds: bool) -> Outcome {
    if holds {
        Outcome::Done
    } else {
        Outcome::Nothing
    }
}

impl Player {
    /// Makes the call.
    pub(super) fn calls(&mut self, call: Call) -> Outcome {
        let alloc = self.alloc;
        match call {
            Call::Creds(whose, ufrag, pass) => {
                set_creds(&mut self.agent, whose, creds(alloc, ufrag, pass).ok())
            }
            Call::Long(whose, len) => set_creds(&mut self.agent, whose, long(alloc, len)),
            Call::LongAgent(len) => make_agent(alloc, len),
            Call::Host(at) => add_local(&mut self.agent, host(alloc, at)),
            Call::HostOf(at, prio) => add_with_prio(&mut self.agent, host(alloc, at), prio),
            Call::Own(line) => add_local(&mut self.agent, parsed(alloc, line)),
            Call::OwnGreatest => add_local(&mut self.agent, greatest(alloc)),
            Call::Peer(line) => add_remote(&mut self.agent, parsed(alloc, line)),
            Call::Peers(count) => add_remotes(&mut self.agent, alloc, count),
            Call::Invalidate(line) => invalidate(&mut self.agent, parsed(alloc, line)),
            Call::Recreate => outcome_of(self.agent.recreate_candidate_pairs()),
            Call::Control(role) => {
                self.agent.set_controlling(role);
                Outcome::Done
            }
            Call::SetMtu(mtu, mtu_warn) => outcome_of(self.agent.set_mtu(mtu..=mtu_warn)),
            _ => self.passes(call),
        }
    }

    /// Makes a call of `handle_timeout`.
    fn passes(&mut self, call: Call) -> Outcome {
        match call {
            Call::Timeout(ms) => self.passes_to(ms),
            Call::Check(ms) => done_if(self.checks(ms)),
            Call::CheckOn(ms, from, to) => done_if(self.checks_on(ms, from, to)),
            Call::CheckTo(ms, to, nominates) => done_if(self.checks_to(ms, to, nominates)),
            Call::CheckBy(ms, to, number) => done_if(self.checks_by(ms, to, number)),
            Call::CheckPublished(ms) => done_if(self.checks_under_published_id(ms)),
            Call::CheckZeros(ms, to) => done_if(self.checks_under_zeros(ms, to)),
            _ => Outcome::Other,
        }
    }

    pub(super) fn passes_to(&mut self, ms: u64) -> Outcome {
        outcome_of(self.agent.handle_timeout(later(ms), &mut self.rng))
    }

    /// Calls `handle_timeout`, which sends a packet.
    pub(super) fn checks(&mut self, ms: u64) -> bool {
        self.passes_to(ms) == Outcome::Done && self.sends()
    }

    /// Calls `handle_timeout`, which sends a packet from the first address to the second.
    fn checks_on(&mut self, ms: u64, from: &str, to: &str) -> bool {
        self.checks(ms) && is_on(&self.sent, from, to)
    }

    /// Calls `handle_timeout`, which sends a packet from 10.0.0.1:1000 to this address, with USE-CANDIDATE or without.
    fn checks_to(&mut self, ms: u64, to: At, nominates: bool) -> bool {
        self.checks(ms) && self.has_sent_from(At(1, 1000), to) && self.has_nominated(nominates)
    }

    /// Calls `handle_timeout`, which sends a packet to this address, with USE-CANDIDATE and NOMINATION of this number or with neither.
    fn checks_by(&mut self, ms: u64, to: At, number: Option<u32>) -> bool {
        self.checks_to(ms, to, number.is_some()) && self.has_number(number)
    }

    /// Calls `handle_timeout` with the first random words of the published example of PCG. A packet is sent.
    fn checks_under_published_id(&mut self, ms: u64) -> bool {
        let passed = self.agent.handle_timeout(later(ms), &mut generator());
        outcome_of(passed) == Outcome::Done && self.sends()
    }

    /// Calls `handle_timeout` with random words of zeros. A packet is sent to this address, and its id is twelve zeros.
    fn checks_under_zeros(&mut self, ms: u64, to: At) -> bool {
        let passed = self.agent.handle_timeout(later(ms), &mut Zeros);
        outcome_of(passed) == Outcome::Done
            && self.sends()
            && self.has_sent_from(At(1, 1000), to)
            && self.has_id(TransId([0; 12]))
    }
}

fn set_creds(agent: &mut Agent, whose: Whose, creds: Option<IceCreds>) -> Outcome {
    let Some(creds) = creds else {
        return Outcome::Other;
    };
    outcome_of(match whose {
        Whose::Local => agent.set_local_credentials(creds),
        Whose::Remote => agent.set_remote_credentials(creds),
        Whose::Restarted => agent.ice_restart(creds, true),
        Whose::Emptied => agent.ice_restart(creds, false),
    })
}

/// Makes an agent whose username fragment has so many letters.
fn make_agent(alloc: Global, len: usize) -> Outcome {
    let Some(creds) = long(alloc, len) else {
        return Outcome::Other;
    };
    match Agent::new(alloc, creds, 1).err() {
        None => Outcome::Done,
        Some(error) => outcome(&error),
    }
}

/// Adds the local candidate; whether it is stored.
fn add_local(agent: &mut Agent, candidate: Option<Candidate>) -> Outcome {
    let Some(candidate) = candidate else {
        return Outcome::Other;
    };
    match agent.add_local_candidate(candidate) {
        Ok(added) => done_if(added.is_some()),
        Err(error) => outcome(&error),
    }
}

/// Adds a local candidate, which has this priority then.
fn add_with_prio(agent: &mut Agent, candidate: Option<Candidate>, prio: u32) -> Outcome {
    let Some(candidate) = candidate else {
        return Outcome::Other;
    };
    match agent.add_local_candidate(candidate) {
        Ok(Some(added)) => done_if(added.prio() == prio),
        _ => Outcome::Nothing,
    }
}

fn add_remote(agent: &mut Agent, candidate: Option<Candidate>) -> Outcome {
    match candidate {
        Some(candidate) => outcome_of(agent.add_remote_candidate(candidate)),
        None => Outcome::Other,
    }
}

/// Adds so many of the peer's candidates.
fn add_remotes(agent: &mut Agent, alloc: Global, count: u8) -> Outcome {
    for number in 1..=count {
        let outcome = add_remote(agent, numbered(alloc, number));
        if outcome != Outcome::Done {
            return outcome;
        }
    }
    Outcome::Done
}

fn invalidate(agent: &mut Agent, candidate: Option<Candidate>) -> Outcome {
    match candidate {
        Some(candidate) => done_if(agent.invalidate_candidate(&candidate)),
        None => Outcome::Other,
    }
}
