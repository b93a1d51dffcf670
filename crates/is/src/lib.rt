//! A proved ICE agent (RFC 8445). It has no sockets, no clock, no threads and no random source of its own. The caller passes
//! times, candidates, packets and random words, and polls packets, events and the next timeout.
//!
//! A session is a loop over an [`IceAgent`]: `handle_packet` for each packet that is received, or `handle_timeout` at the time
//! that `poll_timeout` returned. Then `poll_timeout` for the next timeout, and `poll_transmit` and `poll_event` until each
//! returns nothing. `poll_timeout` is called first, since it returns an earlier time while a packet is queued, so that a path is
//! selected sooner. [`run`] makes a whole list of such calls, with packets as raw bytes, and logs the result of each. A [`World`]
//! is two agents and the in-flight packets between them.
#![tactic(auto)]

mod calls;
mod runs;
mod steps;
mod traces;
mod world;
mod world_events;
mod world_steps;
mod world_theorems;

pub use calls::{AgentCall, Answer, Call, Entry};
pub use is_agent::{
    IceAgent, IceAgentEvent, IceAgentStats, IceConnectionState, IceCreds, LiveCandidates,
    Rejection, Unserved,
};
pub use is_candidate::{
    Candidate, CandidateBuilder, CandidateKind, FnPreference, JsonScratch, LocalPreference,
    PreferenceFunction, default_local_preference,
};
pub use is_proto::{
    DefaultSha1HmacProvider, Duration, IceError, Instant, ParseFault, Protocol, Sha1HmacProvider,
    SocketText, StunError, TcpType, Text, Transmit,
};
pub use is_rules::emitted::{Issued, Path};
pub use is_rules::settings::Settings;
pub use is_stun::stun::{Consent, ConsentSetting, Profile};
pub use runs::{RunLog, run};
pub use traces::Trace;
pub use world::{AgentSpec, TwoAgents, World};
pub use world_events::{InFlight, Side, TwoAgentsEvent, WorldEntry, WorldEvent, WorldLog};

/// What `IceAgent::local_candidates` returns.
pub type LocalCandidates<'a> = LiveCandidates<'a>;

/// What `IceAgent::remote_candidates` returns.
pub type RemoteCandidates<'a> = LiveCandidates<'a>;

/// The type states of `CandidateBuilder`.
pub mod candidate {
    pub use is_candidate::{HasProtocol, HasRoute, NoProtocol, NoRoute, Tcp, Udp};
}

/// Candidate pairs: the checks of one path.
pub mod pair {
    pub use is_pair::pair::{BindingAttempt, CandidatePair, CheckState, NominationState, PairId};
}

/// Candidate attributes (RFC 5245, section 15.1).
pub mod parse {
    pub use is_candidate::parse::parse_candidate;
}

/// STUN messages (RFC 8489) and their timing.
pub mod stun {
    pub use is_proto::StunError;
    pub use is_stun::stun::{
        Attributes, Builder, Class, Consent, ConsentSetting, DEFAULT_MAX_RETRANSMITS, HasClass,
        HasMethod, Method, NoMethod, Profile, StunMessage, StunMessageBuilder, StunPacket,
        StunTiming, TransId,
    };
}
