//! Each call has its log entry, in order.

use is::{
    AgentCall, Answer, Call, Candidate, DefaultSha1HmacProvider, Duration, IceAgent, IceCreds,
    IceError, LocalPreference, Profile, Protocol, RunLog, Text, run,
};
use rand_core::SeedableRng;
use rand_pcg::Pcg32;
use std::alloc::{AllocError, Global};
use std::net::{Ipv4Addr, SocketAddr, SocketAddrV4};
use std::test::Fail;

fn at(host: u8, port: u16) -> SocketAddr {
    SocketAddr::V4(SocketAddrV4::new(Ipv4Addr::new(10, 0, 0, host), port))
}

fn creds(alloc: Global, ufrag: &str, pass: &str) -> Result<IceCreds, AllocError> {
    Ok(IceCreds {
        ufrag: Text::from_str(alloc, ufrag)?,
        pass: Text::from_str(alloc, pass)?,
    })
}

/// The log of the calls on a new agent.
fn run_on_new(alloc: Global, calls: Vec<Call>) -> Result<RunLog, Fail> {
    let mut agent: IceAgent<DefaultSha1HmacProvider> = IceAgent::new(
        alloc,
        creds(alloc, "near", "nearpass")?,
        10,
    )?;
    Ok(run(&mut agent, calls, &mut Pcg32::seed_from_u64(1)))
}

/// There is one log entry for each call, in order.
fn are_in_number(log: &RunLog, count: usize) -> bool {
    let mut next = 0usize;
    for entry in &log.entries {
        if entry.number != next {
            return false;
        }
        next = next.saturating_add(1);
    }
    next == count && !log.stopped
}

/// Calls that do not allocate.
fn settings(alloc: Global) -> Option<Vec<Call>> {
    Vec::from_array(
        alloc,
        [
            AgentCall::SetMtu(588..=1280),
            AgentCall::SetMtu(587..=1280),
            AgentCall::SetControlTieBreaker(3),
            AgentCall::SetMaxCandidatePairs(10),
            AgentCall::SetIceLite(false),
            AgentCall::SetRenomination(true),
            AgentCall::SetProfile(Profile::Modern),
            AgentCall::SetTimingAdvance(Duration(50_000_000)),
            AgentCall::SetInitialStunRto(Duration(250_000_000)),
            AgentCall::SetMaxStunRto(Duration(3_000_000_000)),
            AgentCall::SetLiteTimeout(Duration(30_000_000_000)),
            AgentCall::SetMaxStunRetransmits(0),
            AgentCall::SetMaxStunRetransmits(9),
            AgentCall::SetControlling(true),
            AgentCall::SkipPairIds(7),
            AgentCall::PollTimeout,
        ],
    )
    .ok()
}

/// A call that fails has its log entry as any other, and the run continues.
const SETTINGS_ANSWERS: [Answer; 16] = [
    Answer::Done,
    Answer::Refused(IceError::MtuTooSmall),
    Answer::Done,
    Answer::Done,
    Answer::Done,
    Answer::Done,
    Answer::Done,
    Answer::Done,
    Answer::Done,
    Answer::Done,
    Answer::Done,
    Answer::NotCalled,
    Answer::Done,
    Answer::Done,
    Answer::Done,
    Answer::Wake(None),
];

/// The log entries have these results.
fn have_answers(log: &RunLog, answers: &[Answer]) -> bool {
    for (entry, answer) in log.entries.iter().zip(answers) {
        if entry.answer != *answer {
            return false;
        }
    }
    true
}

#[test]
fn each_setting_has_its_entry(rt: HostRuntime) -> Result<(), Fail> {
    let log = run_on_new(rt.alloc(), settings(rt.alloc()).ok_or("no memory")?)?;
    assert!(rt; are_in_number(&log, SETTINGS_ANSWERS.len()));
    assert!(rt; have_answers(&log, &SETTINGS_ANSWERS));
    Ok(())
}

/// 65535, less one for each earlier candidate of the kind.
#[derive(Drop)]
struct Falling;

impl LocalPreference for Falling {
    ghost use Rattle.std.specs.Prelude.{◌≡◌, ◌-◌, min};

    ghost answers = { λ _ _ before r. r ≡ 65535 - min before 65535 };

    fn calculate(&self, _c: &Candidate, same_kind: usize) -> u32 {
        65535 - same_kind.min(65535) as u32
    }
}

fn host(alloc: Global, address: SocketAddr) -> Result<Candidate, IceError> {
    Candidate::host(alloc, address, Protocol::Udp)
}

/// The peer's credentials, the host candidate, once more, and one of the peer.
fn first_calls(alloc: Global) -> Result<Vec<Call>, IceError> {
    let calls = [
        AgentCall::SetRemoteCredentials(creds(alloc, "farr", "farpass")?),
        AgentCall::AddLocalCandidate(host(alloc, at(1, 1000))?),
        AgentCall::AddLocalCandidate(host(alloc, at(1, 1000))?),
        AgentCall::AddRemoteCandidate(host(alloc, at(2, 2000))?),
        AgentCall::RecreateCandidatePairs,
    ];
    Ok(Vec::from_array(alloc, calls)?)
}

/// A restart that keeps the host candidate, which is invalidated after it.
fn restart(alloc: Global, calls: &mut Vec<Call>) -> Result<(), IceError> {
    calls.push(AgentCall::RestartIce {
        creds: creds(alloc, "near", "nearpass")?,
        keep: true,
    })?;
    calls.push(AgentCall::InvalidateCandidate(host(alloc, at(1, 1000))?))?;
    Ok(())
}

/// The calls for candidates, preference and credentials.
fn calls_with_memory(
    alloc: Global,
    preference: Box<dyn LocalPreference>,
) -> Result<Vec<Call>, IceError> {
    let mut calls = first_calls(alloc)?;
    restart(alloc, &mut calls)?;
    calls.push(AgentCall::SetLocalPreference(preference))?;
    let own = IceCreds::new(alloc, &mut Pcg32::seed_from_u64(1))?;
    calls.push(AgentCall::SetLocalCredentials(own))?;
    Ok(calls)
}

/// The host is not added a second time: its priority would be lower, since it would be the second of its kind.
const CANDIDATE_ANSWERS: [Answer; 9] = [
    Answer::Done,
    Answer::Added,
    Answer::NotAdded,
    Answer::Done,
    Answer::Done,
    Answer::Done,
    Answer::Flag(true),
    Answer::Done,
    Answer::Done,
];

#[test]
fn each_call_with_memory_has_its_entry(rt: HostRuntime) -> Result<(), Fail> {
    let preference = Box::new(rt.alloc(), Falling)?;
    let log = run_on_new(rt.alloc(), calls_with_memory(rt.alloc(), preference)?)?;
    assert!(rt; are_in_number(&log, CANDIDATE_ANSWERS.len()));
    assert!(rt; have_answers(&log, &CANDIDATE_ANSWERS));
    Ok(())
}
