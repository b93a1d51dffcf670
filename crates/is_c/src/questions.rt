//! What the caller may query, without a change of the agent.

ghost use Rattle.std.specs.Prelude.{◌≡◌, None, slice_get};
ghost use Rattle.std.specs.Option.{option_copied};
ghost use Rattle.is_pair.specs.Pairs.{PairRecord};
ghost use Rattle.is_rules.specs.Questions.{live, nominated_pair};
ghost use Rattle.is_agent.specs.Added.{listed_index};
ghost use Rattle.is_agent.specs.View.{record_of};
ghost use Rattle.is_c.specs.Slots.{held_record, held_by};
ghost use Rattle.is_c_calls.specs.Held.{At};
ghost use Rattle.is_c.specs.Questions.{IsStatus, ReturnsStatus, stats_of, ReturnsStats, PutsLine, ReturnsLine};
ghost use Rattle.is_c.specs.Questions.{CountsEarly, ReturnsRemote, ReturnsViable};
ghost use Rattle.is_c.specs.Selected.{candidate_of, IsNominated, IsNominatedIn, ReturnsNominated};

use crate::address::{address_of, number_of, socket_of};
use crate::codes;
use crate::events::state_number;
use crate::held::HeldAgent;
use crate::settings::number_of_limit;
use crate::slot::Slot;
use crate::text::put;
use is_c_calls::Address;
use is_candidate::Candidate;
use is_candidate::candidate::internals::base;
use is_pair::pair::CandidatePair;
use std::alloc::Global;

/// The agent's settings and its connection state.
#[repr(C)]
#[derive(Clone, Copy)]
pub struct Status {
    /// 0 New, 1 Checking, 2 Connected, 3 Completed, 4 Disconnected.
    pub state: i32,
    pub controlling: bool,
    pub lite: bool,
    pub mtu: usize,
    pub mtu_warn: usize,
    /// How long a pair is checked without a response before it is removed, in nanoseconds.
    pub ice_timeout: u64,
    /// How many candidates of each side may be listed: at the limit none is added. The greatest number means that there is no limit.
    pub max_candidates: usize,
}

/// Counters since the last ICE restart.
#[repr(C)]
#[derive(Clone, Copy)]
pub struct Stats {
    pub bind_request_sent: u64,
    pub bind_success_recv: u64,
    pub bind_request_recv: u64,
    pub discovered_recv_count: u64,
    pub nomination_send_count: u64,
}

/// The pair that was selected last: its path and its figures. Times are in nanoseconds.
#[repr(C)]
#[derive(Clone, Copy)]
pub struct Nominated {
    /// The address from which media is sent, as the last `NominatedSend` says.
    pub source: Address,
    /// The address to which media is sent.
    pub destination: Address,
    /// The sum of the round-trip times of all answered checks.
    pub total_rtt: u64,
    pub responses: u64,
    /// The round-trip time of the last answered check, if there is one.
    pub rtt: u64,
    /// The protocol over which media is sent.
    pub protocol: u8,
    pub has_rtt: bool,
}

fn reported_status(held: &HeldAgent) -> Status
    ensures { IsStatus (held_record held.now) result }
{
    let agent = &held.agent;
    Status {
        state: state_number(agent.state()),
        controlling: agent.controlling(),
        lite: agent.ice_lite(),
        mtu: agent.mtu(),
        mtu_warn: agent.mtu_warn(),
        ice_timeout: agent.ice_timeout().0,
        max_candidates: number_of_limit(agent.settings().max_candidates),
    }
}

/// Writes the agent's settings and its connection state.
#[unsafe(no_mangle)]
pub extern "C" fn is_ice_status(alloc: Global, slot: &mut Slot, figures: &mut Status) -> i32
    ensures returned { At (ReturnsStatus figures.new) (held_by slot.old) result (held_by slot.new) }
    ensures stays { held_by slot.new ≡ held_by slot.old }
    ensures without { held_by slot.old ≡ None → figures.new ≡ figures.old }
{
    let Some(held) = slot.held() else {
        return codes::NO_AGENT;
    };
    *figures = reported_status(held);
    codes::OK
}

fn reported_stats(held: &HeldAgent) -> Stats
    ensures { stats_of result ≡ (record_of held.now.agent).stats }
{
    let stats = held.agent.stats();
    Stats {
        bind_request_sent: stats.bind_request_sent,
        bind_success_recv: stats.bind_success_recv,
        bind_request_recv: stats.bind_request_recv,
        discovered_recv_count: stats.discovered_recv_count,
        nomination_send_count: stats.nomination_send_count,
    }
}

/// Writes the counters since the last ICE restart.
#[unsafe(no_mangle)]
pub extern "C" fn is_ice_stats(alloc: Global, slot: &mut Slot, figures: &mut Stats) -> i32
    ensures returned { At (ReturnsStats figures.new) (held_by slot.old) result (held_by slot.new) }
    ensures stays { held_by slot.new ≡ held_by slot.old }
    ensures without { held_by slot.old ≡ None → figures.new ≡ figures.old }
{
    let Some(held) = slot.held() else {
        return codes::NO_AGENT;
    };
    *figures = reported_stats(held);
    codes::OK
}

/// Writes how many early requests wait: received before the remote credentials, and not served yet.
#[unsafe(no_mangle)]
pub extern "C" fn is_ice_early_count(alloc: Global, slot: &mut Slot, count: &mut usize) -> i32
    ensures counted { At (CountsEarly count.new) (held_by slot.old) result (held_by slot.new) }
    ensures stays { held_by slot.new ≡ held_by slot.old }
    ensures without { held_by slot.old ≡ None → count.new ≡ count.old }
{
    let Some(held) = slot.held() else {
        return codes::NO_AGENT;
    };
    *count = held.agent.early_request_count();
    codes::OK
}

/// The pair that was selected last, if it still exists.
fn selected_pair(held: &HeldAgent) -> Option<&CandidatePair>
    ensures { option_copied result ≡ nominated_pair (record_of held.now.agent) }
{
    for index in 0..held.agent.candidate_pair_count() {
        let pair = held.agent.candidate_pair(index)?;
        if held.agent.is_selected_pair(pair) {
            return Some(pair);
        }
    }
    None
}

/// The pair as C gets it: its path is that of its candidates, from the local one's base to the remote one's address.
fn reported_nominated(pair: &CandidatePair, local: &Candidate, remote: &Candidate) -> Nominated
    ensures { IsNominated pair.now local.now remote.now result }
{
    let rtt = pair.last_successful_rtt();
    Nominated {
        source: address_of(base(local)),
        destination: address_of(remote.addr()),
        total_rtt: pair.total_round_trip_time().0,
        responses: pair.responses_received(),
        rtt: match rtt {
            Some(time) => time.0,
            None => 0,
        },
        protocol: number_of(local.proto()),
        has_rtt: rtt.is_some(),
    }
}

fn selected(held: &HeldAgent) -> Option<Nominated>
    ensures { IsNominatedIn (record_of held.now.agent) (nominated_pair (record_of held.now.agent)) result }
{
    let pair = selected_pair(held)?;
    let local = local_at(held, held.agent.local_candidate_index(pair))?;
    let remote = remote_at(held, held.agent.remote_candidate_index(pair))?;
    Some(reported_nominated(pair, local, remote))
}

/// Writes the pair that was selected last: the path of the last `NominatedSend`, and the pair's figures.
#[unsafe(no_mangle)]
pub extern "C" fn is_ice_nominated(alloc: Global, slot: &mut Slot, figures: &mut Nominated) -> i32
    ensures selected { At (ReturnsNominated figures.old figures.new) (held_by slot.old) result (held_by slot.new) }
    ensures stays { held_by slot.new ≡ held_by slot.old }
    ensures without { held_by slot.old ≡ None → figures.new ≡ figures.old }
{
    let Some(held) = slot.held() else {
        return codes::NO_AGENT;
    };
    match selected(held) {
        Some(found) => {
            *figures = found;
            codes::OK
        }
        None => codes::NOTHING,
    }
}

// ---- candidates

/// Writes the candidate attribute of the candidate, if there is one.
pub(crate) fn put_line(
    alloc: Global,
    candidate: Option<&Candidate>,
    buffer: &mut [u8],
    length: &mut usize,
) -> i32
    ensures { PutsLine (option_copied candidate.entry) buffer.old length.old result buffer.new length.new }
{
    match candidate {
        Some(candidate) => match candidate.to_sdp_string(alloc) {
            Ok(line) => put(line.as_bytes(), buffer, length),
            Err(_) => codes::OUT_OF_MEMORY,
        },
        None => codes::NOTHING,
    }
}

pub(crate) fn local_at(held: &HeldAgent, index: usize) -> Option<&Candidate>
    ensures { option_copied result ≡ slice_get (live (record_of held.now.agent).local) index }
{
    held.agent.local_candidates().nth(index)
}

pub(crate) fn remote_at(held: &HeldAgent, index: usize) -> Option<&Candidate>
    ensures { option_copied result ≡ slice_get (live (record_of held.now.agent).remote) index }
{
    held.agent.remote_candidates().nth(index)
}

/// Writes the candidate attribute of a local candidate, for signaling. Candidates are counted from 0, without the discarded
/// ones.
#[unsafe(no_mangle)]
pub extern "C" fn is_ice_local_candidate(
    alloc: Global,
    slot: &mut Slot,
    index: usize,
    buffer: &mut [u8],
    length: &mut usize,
) -> i32
    ensures listed { At (ReturnsLine (λ a. a.local) index buffer.old length.old buffer.new length.new) (held_by slot.old) result (held_by slot.new) }
    ensures stays { held_by slot.new ≡ held_by slot.old }
    ensures without { held_by slot.old ≡ None → (buffer.new ≡ buffer.old) × (length.new ≡ length.old) }
{
    let Some(held) = slot.held() else {
        return codes::NO_AGENT;
    };
    put_line(alloc, local_at(held, index), buffer, length)
}

/// Writes the candidate attribute of a remote candidate. Candidates are counted from 0, without the discarded ones.
#[unsafe(no_mangle)]
pub extern "C" fn is_ice_remote_candidate(
    alloc: Global,
    slot: &mut Slot,
    index: usize,
    buffer: &mut [u8],
    length: &mut usize,
) -> i32
    ensures listed { At (ReturnsLine (λ a. a.remote) index buffer.old length.old buffer.new length.new) (held_by slot.old) result (held_by slot.new) }
    ensures stays { held_by slot.new ≡ held_by slot.old }
    ensures without { held_by slot.old ≡ None → (buffer.new ≡ buffer.old) × (length.new ≡ length.old) }
{
    let Some(held) = slot.held() else {
        return codes::NO_AGENT;
    };
    put_line(alloc, remote_at(held, index), buffer, length)
}

/// Whether a check succeeded on a pair whose remote candidate has this address.
#[unsafe(no_mangle)]
pub extern "C" fn is_ice_has_viable_remote(alloc: Global, slot: &mut Slot, address: &Address) -> i32
    ensures returned { At (ReturnsViable address.now) (held_by slot.old) result (held_by slot.new) }
    ensures stays { held_by slot.new ≡ held_by slot.old }
{
    let Some(held) = slot.held() else {
        return codes::NO_AGENT;
    };
    match socket_of(address) {
        Some(address) => codes::found_code(held.agent.has_viable_remote_candidate(address)),
        None => codes::BAD_ADDRESS,
    }
}

// ---- the peer's credentials

/// Writes the peer's username fragment to the buffer.
#[unsafe(no_mangle)]
pub extern "C" fn is_ice_remote_ufrag(
    alloc: Global,
    slot: &mut Slot,
    buffer: &mut [u8],
    length: &mut usize,
) -> i32
    ensures returned { At (ReturnsRemote (λ creds. creds.ufrag) buffer.old length.old buffer.new length.new) (held_by slot.old) result (held_by slot.new) }
    ensures stays { held_by slot.new ≡ held_by slot.old }
    ensures without { held_by slot.old ≡ None → (buffer.new ≡ buffer.old) × (length.new ≡ length.old) }
{
    let Some(held) = slot.held() else {
        return codes::NO_AGENT;
    };
    match held.agent.remote_credentials() {
        Some(creds) => put(creds.ufrag.as_str().as_bytes(), buffer, length),
        None => codes::NOTHING,
    }
}

/// Writes the peer's password to the buffer.
#[unsafe(no_mangle)]
pub extern "C" fn is_ice_remote_pass(
    alloc: Global,
    slot: &mut Slot,
    buffer: &mut [u8],
    length: &mut usize,
) -> i32
    ensures returned { At (ReturnsRemote (λ creds. creds.pass) buffer.old length.old buffer.new length.new) (held_by slot.old) result (held_by slot.new) }
    ensures stays { held_by slot.new ≡ held_by slot.old }
    ensures without { held_by slot.old ≡ None → (buffer.new ≡ buffer.old) × (length.new ≡ length.old) }
{
    let Some(held) = slot.held() else {
        return codes::NO_AGENT;
    };
    match held.agent.remote_credentials() {
        Some(creds) => put(creds.pass.as_str().as_bytes(), buffer, length),
        None => codes::NOTHING,
    }
}
