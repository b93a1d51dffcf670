//! Calls of an agent as values, and their results.
use is_agent::{IceAgentEvent, IceCreds};
use is_candidate::{Candidate, LocalPreference};
use is_proto::{Duration, IceError, Instant, ParseFault, Protocol, Transmit};
use is_rules::emitted::{Issued, Path};
use is_stun::stun::{ConsentSetting, Profile};
use std::net::SocketAddr;
use std::ops::RangeInclusive;

/// A call of an `IceAgent`.
pub type Call = AgentCall<Box<dyn LocalPreference>>;

/// A call that can change an agent: one variant for each, with the call's arguments. The preferences of local candidates may come
/// from an object of `P`.
#[derive(Drop)]
pub enum AgentCall<P> {
    /// `set_mtu`. Its result is `Done`.
    SetMtu(RangeInclusive<usize>),
    /// `set_control_tie_breaker`. Its result is `Done`.
    SetControlTieBreaker(u64),
    /// `set_max_candidate_pairs`. Its result is `Done`.
    SetMaxCandidatePairs(usize),
    /// `set_max_discovered`. Its result is `Done`.
    SetMaxDiscovered(Option<usize>),
    /// `set_max_candidates`. Its result is `Done`.
    SetMaxCandidates(Option<usize>),
    /// `set_ice_lite`. Its result is `Done`.
    SetIceLite(bool),
    /// `set_renomination`. Its result is `Done`.
    SetRenomination(bool),
    /// `set_profile`. Its result is `Done`.
    SetProfile(Profile),
    /// `set_consent`. Its result is `Done`.
    SetConsent(ConsentSetting),
    /// `set_timing_advance`. Its result is `Done`.
    SetTimingAdvance(Duration),
    /// `set_initial_stun_rto`. Its result is `Done`.
    SetInitialStunRto(Duration),
    /// `set_max_stun_rto`. Its result is `Done`.
    SetMaxStunRto(Duration),
    /// `set_max_stun_retransmits`. Its result is `Done`, or `NotCalled` if the limit is 0.
    SetMaxStunRetransmits(usize),
    /// `set_lite_timeout`. Its result is `Done`.
    SetLiteTimeout(Duration),
    /// `set_local_preference`. Its result is `Done`.
    SetLocalPreference(P),
    /// `set_controlling`. Its result is `Done`.
    SetControlling(bool),
    /// `set_local_credentials`. Its result is `Done`.
    SetLocalCredentials(IceCreds),
    /// `set_remote_credentials`. Its result is `Done`.
    SetRemoteCredentials(IceCreds),
    /// `skip_pair_ids`. Its result is `Done`.
    SkipPairIds(u64),
    /// `add_local_candidate`. Its result is `Added` or `NotAdded`.
    AddLocalCandidate(Candidate),
    /// `add_remote_candidate`. Its result is `Done`.
    AddRemoteCandidate(Candidate),
    /// `invalidate_candidate`. Its result is `Flag`.
    InvalidateCandidate(Candidate),
    /// `ice_restart`. Its result is `Done`.
    RestartIce {
        /// The new local credentials.
        creds: IceCreds,
        /// Whether the local candidates stay.
        keep: bool,
    },
    /// `recreate_candidate_pairs`. Its result is `Done`.
    RecreateCandidatePairs,
    /// `handle_packet` of the message that the bytes encode. Its result is `Flag`, or `Unparsed` if they encode none.
    Packet {
        /// When the packet was received.
        now: Instant,
        /// The protocol over which the packet was received.
        proto: Protocol,
        /// Where the packet came from.
        source: SocketAddr,
        /// The local address on which the packet was received.
        destination: SocketAddr,
        /// The bytes of the whole packet, as it was received.
        bytes: Vec<u8>,
    },
    /// `handle_timeout` at this time. Its result is `Done`.
    HandleTimeout(Instant),
    /// `poll_transmit`. Its result is `Transmit`.
    PollTransmit,
    /// `poll_timeout`. Its result is `Wake`.
    PollTimeout,
    /// `poll_event`. Its result is `Event`.
    PollEvent,
}

/// The result of a call.
#[derive(Debug, PartialEq, Eq, Drop)]
pub enum Answer {
    /// The call succeeded, and has no other result.
    Done,
    /// The local candidate was added.
    Added,
    /// The local candidate was not added.
    NotAdded,
    /// The boolean that the call returned: for a packet, whether it was accepted.
    Flag(bool),
    /// The packet to send next, if there is one.
    Transmit(Option<Transmit>),
    /// The next event, if there is one.
    Event(Option<IceAgentEvent>),
    /// The next timeout, if there is one.
    Wake(Option<Instant>),
    /// The bytes are not a STUN message; this is their first fault. Nothing was changed.
    Unparsed(ParseFault),
    /// The call failed with this error. Nothing was changed.
    Refused(IceError),
    /// The call violates a precondition of the agent, and was not made.
    NotCalled,
    /// The call does not belong to the two-agent network model, and was not made.
    NotInWorld,
    /// There is no packet with this number, and nothing was done.
    NoSuchPacket,
}

/// A log entry: the result of one call.
#[derive(Debug, PartialEq, Eq, Drop)]
pub struct Entry {
    /// The index of the call in the list, from 0.
    pub number: usize,
    /// What the call returned.
    pub answer: Answer,
    /// The packet that the call issued: `poll_transmit` returns it after those that were issued before it.
    pub issued: Option<Issued>,
    /// The paths that the call selected (`NominatedSend`), in order.
    pub announced: [Option<Path>; 2],
}
