//! One call of a run.
ghost use Rattle.std.specs.Prelude.{◌≡◌, true, IsTrue, ◌↔◌};
ghost use Rattle.rand_core.specs.Stream.{Stream};
ghost use Rattle.is_candidate.specs.Candidates.{IsBased};
ghost use Rattle.is_agent.specs.View.{record_of, emitted_of};
ghost use Rattle.is_rules.specs.Steps as steps;
ghost use Rattle.is_rules.specs.Steps.{Receives, Step};
ghost use Rattle.is_rules.specs.Sound.{GivesBased};
ghost use Rattle.is.specs.Views.{call_view, answer_view, entry_view};
ghost use Rattle.is.specs.Subjects.{is_plain_setting, is_quiet};
ghost use Rattle.is.specs.Accepted.{AcceptsOnPath, LeavesOut};

use crate::calls::{AgentCall, Answer, Entry};
use is_agent::Agent;
use is_agent::emitted::{last_issued, last_selected};
use is_agent::local::add_local;
use is_candidate::{Candidate, LocalPreference};
use is_proto::{IceError, Instant, Sha1HmacProvider, StunError};
use is_rules::emitted::Path;
use is_stun::stun::{StunMessage, StunPacket};
use rand_core::Rng;

/// The log entry of a call that issues nothing and selects no path.
pub(crate) fn quiet(number: usize, answer: Answer) -> Entry
    ensures emitted { entry_view result ≡ steps.quiet (answer_view answer) }
    ensures numbered { result.number ≡ number }
{
    Entry {
        number,
        answer,
        issued: None,
        announced: [None, None],
    }
}

/// The log entry of a call that may select a path: what it emitted is read from the agent.
fn telling<H, P>(agent: &Agent<H, P>, number: usize, answer: Answer) -> Entry
    ensures emitted { entry_view result ≡ record { answer = answer_view answer; emitted = emitted_of agent.now } }
    ensures numbered { result.number ≡ number }
{
    let issued = last_issued(agent);
    let announced = last_selected(agent);
    Entry {
        number,
        answer,
        issued,
        announced,
    }
}

fn done_or_rejected(outcome: Result<(), IceError>) -> Answer
    ensures { answer_view result ≡ steps.answer_by steps.done outcome }
{
    match outcome {
        Ok(()) => Answer::Done,
        Err(error) => Answer::Refused(error),
    }
}

fn added_or_rejected(outcome: Result<Option<usize>, IceError>) -> Answer
    ensures { answer_view result ≡ steps.answer_by steps.added outcome }
{
    match outcome {
        Ok(Some(_)) => Answer::Added,
        Ok(None) => Answer::NotAdded,
        Err(error) => Answer::Refused(error),
    }
}

fn flag_or_rejected(outcome: Result<bool, IceError>) -> Answer
    ensures { answer_view result ≡ steps.answer_by steps.Flag outcome }
{
    match outcome {
        Ok(flag) => Answer::Flag(flag),
        Err(error) => Answer::Refused(error),
    }
}

/// A received packet, as bytes.
pub(crate) fn take_packet<H: Sha1HmacProvider + Drop, P: LocalPreference>(
    agent: &mut Agent<H, P>,
    number: usize,
    now: Instant,
    path: Path,
    bytes: &[u8],
) -> Entry
    ensures did { Receives H.mac P.answers now.0 (record_of agent.old) path bytes.now (entry_view result) (record_of agent.new) }
    ensures numbered { result.number ≡ number }
{
    match StunMessage::parse(bytes) {
        Ok(message) => {
            let packet = StunPacket {
                proto: path.proto,
                source: path.source,
                destination: path.destination,
                message,
            };
            let answer = flag_or_rejected(agent.handle_packet(now, packet));
            telling(agent, number, answer)
        }
        Err(StunError::Parse(fault)) => quiet(number, Answer::Unparsed(fault)),
        Err(_) => unreachable!(),
    }
}

/// Whether the agent accepts these bytes on this path.
fn accepts_bytes<H: Sha1HmacProvider + Drop, P: LocalPreference>(
    agent: &Agent<H, P>,
    path: Path,
    bytes: &[u8],
) -> bool
    ensures { IsTrue result ↔ AcceptsOnPath H.mac (record_of agent.now) path bytes.now }
{
    let Ok(message) = StunMessage::parse(bytes) else {
        return false;
    };
    agent.accepts_packet(&StunPacket {
        proto: path.proto,
        source: path.source,
        destination: path.destination,
        message,
    })
}

/// Bytes that the other agent of a network model did not send. The agent receives them only if it does not accept them.
pub(crate) fn handle_stray<H: Sha1HmacProvider + Drop, P: LocalPreference>(
    agent: &mut Agent<H, P>,
    number: usize,
    now: Instant,
    path: Path,
    bytes: &[u8],
) -> Entry
    ensures same { record_of agent.new ≡ record_of agent.old }
    ensures said { (answer : steps.Answer) × LeavesOut H.mac P.answers now.0 (record_of agent.old) path bytes.now answer × (entry_view result ≡ steps.quiet answer) }
    ensures numbered { result.number ≡ number }
{
    if accepts_bytes(agent, path, bytes) {
        return quiet(number, Answer::NotInWorld);
    }
    take_packet(agent, number, now, path, bytes)
}

/// A `handle_timeout` call.
fn take_timeout<H: Sha1HmacProvider + Drop, P: LocalPreference, R: Rng>(
    agent: &mut Agent<H, P>,
    number: usize,
    now: Instant,
    rng: &mut R,
) -> Entry
    ensures did { Step H.mac P.answers (record_of agent.old) (R.stream rng.old) (steps.HandleTimeout now.0) (entry_view result)
        (record_of agent.new) (R.stream rng.new) }
    ensures numbered { result.number ≡ number }
{
    let answer = done_or_rejected(agent.handle_timeout(now, rng));
    telling(agent, number, answer)
}

/// A retransmit limit. A limit of 0 violates a precondition of the agent.
fn take_limit<H: Sha1HmacProvider + Drop, P: LocalPreference>(
    agent: &mut Agent<H, P>,
    limit: usize,
) -> Answer
    ensures did { (s : Stream) → steps.SetsRetransmits H.mac P.answers limit (record_of agent.old) s (steps.quiet (answer_view result))
        (record_of agent.new) s }
{
    if limit == 0 {
        return Answer::NotCalled;
    }
    agent.set_max_stun_retransmits(limit);
    Answer::Done
}

/// A setting that never fails.
fn take_setting<H: Sha1HmacProvider + Drop, P: LocalPreference>(
    agent: &mut Agent<H, P>,
    call: AgentCall<P>,
)
    requires setting { is_plain_setting (call_view call) ≡ true }
    ensures did { (s : Stream) → Step H.mac P.answers (record_of agent.old) s (call_view call) (steps.quiet steps.Done)
        (record_of agent.new) s }
    ensures given { GivesBased (call_view call) }
{
    match call {
        AgentCall::SetControlTieBreaker(tie_breaker) => agent.set_control_tie_breaker(tie_breaker),
        AgentCall::SetMaxCandidatePairs(limit) => agent.set_max_candidate_pairs(limit),
        AgentCall::SetMaxDiscovered(limit) => agent.set_max_discovered(limit),
        AgentCall::SetMaxCandidates(limit) => agent.set_max_candidates(limit),
        AgentCall::SetIceLite(lite) => agent.set_ice_lite(lite),
        AgentCall::SetRenomination(enabled) => agent.set_renomination(enabled),
        AgentCall::SetProfile(profile) => agent.set_profile(profile),
        AgentCall::SetConsent(consent) => agent.set_consent(consent),
        AgentCall::SetTimingAdvance(advance) => agent.set_timing_advance(advance),
        AgentCall::SetInitialStunRto(rto) => agent.set_initial_stun_rto(rto),
        AgentCall::SetMaxStunRto(rto) => agent.set_max_stun_rto(rto),
        AgentCall::SetLiteTimeout(timeout) => agent.set_lite_timeout(timeout),
        AgentCall::SetLocalPreference(object) => agent.set_local_preference(object),
        AgentCall::SetControlling(role) => agent.set_controlling(role),
        AgentCall::SkipPairIds(least) => agent.skip_pair_ids(least),
        _ => unreachable!(),
    }
}

/// A call that issues no packet and selects no path.
fn take_quiet<H: Sha1HmacProvider + Drop, P: LocalPreference>(
    agent: &mut Agent<H, P>,
    call: AgentCall<P>,
) -> Answer
    requires quiet { is_quiet (call_view call) ≡ true }
    ensures did { (s : Stream) → Step H.mac P.answers (record_of agent.old) s (call_view call) (steps.quiet (answer_view result))
        (record_of agent.new) s }
    ensures given { GivesBased (call_view call) }
{
    match call {
        AgentCall::SetMtu(mtu) => done_or_rejected(agent.set_mtu(mtu)),
        AgentCall::SetMaxStunRetransmits(limit) => take_limit(agent, limit),
        AgentCall::SetLocalCredentials(own) => done_or_rejected(agent.set_local_credentials(own)),
        AgentCall::SetRemoteCredentials(far) => done_or_rejected(agent.set_remote_credentials(far)),
        AgentCall::RestartIce { creds, keep } => done_or_rejected(agent.ice_restart(creds, keep)),
        AgentCall::RecreateCandidatePairs => done_or_rejected(agent.recreate_candidate_pairs()),
        AgentCall::PollTransmit => Answer::Transmit(agent.poll_transmit()),
        AgentCall::PollTimeout => Answer::Wake(agent.poll_timeout()),
        AgentCall::PollEvent => Answer::Event(agent.poll_event()),
        setting => {
            take_setting(agent, setting);
            Answer::Done
        }
    }
}

/// A local candidate is added, which may remove the selected pair.
fn take_local<H: Sha1HmacProvider + Drop, P: LocalPreference>(
    agent: &mut Agent<H, P>,
    number: usize,
    candidate: Candidate,
) -> Entry
    ensures did { (s : Stream) → Step H.mac P.answers (record_of agent.old) s (steps.AddLocalCandidate candidate) (entry_view result)
        (record_of agent.new) s }
    ensures numbered { result.number ≡ number }
    ensures given { IsBased candidate }
{
    let answer = added_or_rejected(add_local(agent, candidate));
    telling(agent, number, answer)
}

/// A remote candidate is added, which may remove the selected pair.
fn take_remote<H: Sha1HmacProvider + Drop, P: LocalPreference>(
    agent: &mut Agent<H, P>,
    number: usize,
    candidate: Candidate,
) -> Entry
    ensures did { (s : Stream) → Step H.mac P.answers (record_of agent.old) s (steps.AddRemoteCandidate candidate) (entry_view result)
        (record_of agent.new) s }
    ensures numbered { result.number ≡ number }
{
    let answer = done_or_rejected(agent.add_remote_candidate(candidate));
    telling(agent, number, answer)
}

/// A candidate is invalidated, which may remove the selected pair.
fn take_lost<H: Sha1HmacProvider + Drop, P: LocalPreference>(
    agent: &mut Agent<H, P>,
    number: usize,
    candidate: &Candidate,
) -> Entry
    ensures did { (s : Stream) → Step H.mac P.answers (record_of agent.old) s (steps.InvalidateCandidate candidate.now) (entry_view result)
        (record_of agent.new) s }
    ensures numbered { result.number ≡ number }
{
    let found = agent.invalidate_candidate(candidate);
    telling(agent, number, Answer::Flag(found))
}

/// One call, with its number.
pub(crate) fn step<H: Sha1HmacProvider + Drop, P: LocalPreference, R: Rng>(
    agent: &mut Agent<H, P>,
    number: usize,
    call: AgentCall<P>,
    rng: &mut R,
) -> Entry
    ensures did { Step H.mac P.answers (record_of agent.old) (R.stream rng.old) (call_view call) (entry_view result) (record_of agent.new)
        (R.stream rng.new) }
    ensures numbered { result.number ≡ number }
    ensures given { GivesBased (call_view call) }
{
    match call {
        AgentCall::Packet {
            now,
            proto,
            source,
            destination,
            bytes,
        } => {
            let path = Path {
                proto,
                source,
                destination,
            };
            take_packet(agent, number, now, path, &bytes)
        }
        AgentCall::HandleTimeout(now) => take_timeout(agent, number, now, rng),
        AgentCall::AddLocalCandidate(added) => take_local(agent, number, added),
        AgentCall::AddRemoteCandidate(added) => take_remote(agent, number, added),
        AgentCall::InvalidateCandidate(lost) => take_lost(agent, number, &lost),
        other => quiet(number, take_quiet(agent, other)),
    }
}
