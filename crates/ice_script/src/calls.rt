//! The call that a line makes, from its fields.
use crate::fault::{Fault, Stop};
use crate::fields::Fields;
use crate::preference::FixedPreference;
use crate::profile::{consent_of, profile_of};
use crate::script::Side;
use crate::table::{
    ADDR, BASE, CallName, FLAG, FROM, HEX, LIMIT, NOW, NUMBER, PACKET, POSITIVE, PREFERENCE, PROTO,
    TARGET, TEXT, TIE, TO, WARN, WHAT,
};
use is::{AgentCall, Candidate, Duration, IceCreds, IceError, Transmit};
use std::alloc::Global;

/// A call of an agent, whose local preferences are those of scripts.
pub type Call = AgentCall<FixedPreference>;

/// The content of a line.
#[derive(Drop)]
pub enum ScriptCall {
    /// Makes or replaces the agent.
    Agent { creds: IceCreds, tie_breaker: u64 },
    /// Makes this call of the agent.
    Call(Call),
    /// The candidate that the call needs is invalid.
    Rejected(IceError),
}

/// A packet that an agent sent. Its number is its index among all of them.
#[derive(Drop)]
pub struct Sent {
    pub side: Side,
    pub packet: Transmit,
}

/// The content of a line with these fields, if these packets were sent before.
pub fn call_of(
    alloc: Global,
    name: CallName,
    fields: Fields<'_>,
    side: Side,
    sent: &[Sent],
) -> Result<ScriptCall, Stop> {
    match name {
        CallName::Agent => agent_call(fields),
        CallName::Host | CallName::Srflx | CallName::Relay => {
            on_candidate(name, local_candidate(alloc, name, fields)?)
        }
        CallName::Candidate | CallName::Invalidate => {
            on_candidate(name, Candidate::from_sdp_string(alloc, fields.line(TEXT)?))
        }
        CallName::Local | CallName::Remote | CallName::Restart => session_call(name, fields),
        CallName::Packet => packet_call(fields),
        CallName::Deliver => delivery(side, fields, sent),
        CallName::Rto | CallName::MaxRto | CallName::LiteTimeout | CallName::Advance => {
            let time = fields.duration(NUMBER)?;
            Ok(ScriptCall::Call(timing_call(name, time)))
        }
        CallName::Controlling | CallName::Lite | CallName::Renomination => {
            let flag = fields.flag(FLAG)?;
            Ok(ScriptCall::Call(flag_call(name, flag)))
        }
        _ => Ok(ScriptCall::Call(plain_call(name, fields)?)),
    }
}

fn agent_call(fields: Fields<'_>) -> Result<ScriptCall, Stop> {
    Ok(ScriptCall::Agent {
        creds: fields.creds()?,
        tie_breaker: fields.number(TIE)?,
    })
}

/// The local candidate of a `host`, `srflx` or `relay` call, or its error.
fn local_candidate(
    alloc: Global,
    name: CallName,
    fields: Fields<'_>,
) -> Result<Result<Candidate, IceError>, Stop> {
    let addr = fields.socket(ADDR)?;
    if name == CallName::Host {
        return Ok(Candidate::host(alloc, addr, fields.protocol(PROTO)?));
    }
    let base = fields.socket(BASE)?;
    let proto = fields.protocol(PROTO)?;
    Ok(if name == CallName::Srflx {
        Candidate::server_reflexive(alloc, addr, base, proto)
    } else {
        Candidate::relayed(alloc, addr, base, proto)
    })
}

/// The call on a candidate. Out of memory ends the script; any other error is the call's result.
fn on_candidate(name: CallName, made: Result<Candidate, IceError>) -> Result<ScriptCall, Stop> {
    match made {
        Ok(candidate) => Ok(ScriptCall::Call(match name {
            CallName::Candidate => Call::AddRemoteCandidate(candidate),
            CallName::Invalidate => Call::InvalidateCandidate(candidate),
            _ => Call::AddLocalCandidate(candidate),
        })),
        Err(IceError::OutOfMemory) => Err(Stop::OutOfMemory),
        Err(error) => Ok(ScriptCall::Rejected(error)),
    }
}

fn session_call(name: CallName, fields: Fields<'_>) -> Result<ScriptCall, Stop> {
    let creds = fields.creds()?;
    Ok(ScriptCall::Call(match name {
        CallName::Restart => Call::RestartIce {
            creds,
            keep: fields.flag(FLAG)?,
        },
        CallName::Local => Call::SetLocalCredentials(creds),
        _ => Call::SetRemoteCredentials(creds),
    }))
}

fn packet_call(fields: Fields<'_>) -> Result<ScriptCall, Stop> {
    Ok(ScriptCall::Call(Call::Packet {
        now: fields.time(NOW)?,
        proto: fields.protocol(PROTO)?,
        source: fields.socket(FROM)?,
        destination: fields.socket(TO)?,
        bytes: fields.bytes(HEX)?,
    }))
}

/// A packet that the other agent sent, with the addresses and the protocol that it was sent with.
fn delivery(side: Side, fields: Fields<'_>, sent: &[Sent]) -> Result<ScriptCall, Stop> {
    let number = fields.number(PACKET)?;
    let found = match usize::try_from(number) {
        Ok(number) => sent.get(number),
        Err(_) => None,
    };
    if let Some(own) = found
        && own.side == side
    {
        return Err(fields.bad(PACKET));
    }
    let now = fields.time(NOW)?;
    let Some(Sent { packet, .. }) = found else {
        let sent = sent.len();
        return Err(Stop::Line(Fault::NoPacket { number, sent }));
    };
    Ok(ScriptCall::Call(Call::Packet {
        now,
        proto: packet.proto,
        source: packet.source,
        destination: packet.destination,
        bytes: packet.contents.clone()?,
    }))
}

fn timing_call(name: CallName, time: Duration) -> Call {
    match name {
        CallName::Rto => Call::SetInitialStunRto(time),
        CallName::MaxRto => Call::SetMaxStunRto(time),
        CallName::LiteTimeout => Call::SetLiteTimeout(time),
        _ => Call::SetTimingAdvance(time),
    }
}

fn flag_call(name: CallName, flag: bool) -> Call {
    match name {
        CallName::Controlling => Call::SetControlling(flag),
        CallName::Lite => Call::SetIceLite(flag),
        _ => Call::SetRenomination(flag),
    }
}

/// A call that has only numbers and names.
fn plain_call(name: CallName, fields: Fields<'_>) -> Result<Call, Stop> {
    Ok(match name {
        CallName::Profile => Call::SetProfile(profile_of(fields)?),
        CallName::Consent => Call::SetConsent(consent_of(fields)?),
        CallName::Tie => Call::SetControlTieBreaker(fields.number(NUMBER)?),
        CallName::Mtu => Call::SetMtu(fields.count(TARGET)?..=fields.count(WARN)?),
        CallName::Pairs => Call::SetMaxCandidatePairs(fields.count(NUMBER)?),
        CallName::Discovered => Call::SetMaxDiscovered(fields.limit(LIMIT)?),
        CallName::Candidates => Call::SetMaxCandidates(fields.limit(LIMIT)?),
        CallName::Retransmits => Call::SetMaxStunRetransmits(fields.positive(POSITIVE)?),
        CallName::Preference => Call::SetLocalPreference(fields.preference(PREFERENCE)?),
        CallName::Skip => Call::SkipPairIds(fields.number(NUMBER)?),
        CallName::Timeout => Call::HandleTimeout(fields.time(NOW)?),
        CallName::Poll => poll_call(fields)?,
        _ => Call::RecreateCandidatePairs,
    })
}

fn poll_call(fields: Fields<'_>) -> Result<Call, Stop> {
    match fields.line(WHAT)? {
        "transmit" => Ok(Call::PollTransmit),
        "event" => Ok(Call::PollEvent),
        "timeout" => Ok(Call::PollTimeout),
        _ => Err(fields.bad(WHAT)),
    }
}
