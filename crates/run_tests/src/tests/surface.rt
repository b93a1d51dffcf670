//! The public types of `is` and the traits of each. If one of them is removed, this does not compile.

use is::candidate::{HasProtocol, HasRoute, NoProtocol, NoRoute, Tcp, Udp};
use is::pair::{BindingAttempt, CandidatePair, CheckState, NominationState, PairId};
use is::stun::{
    Attributes, Builder, Class, HasClass, HasMethod, Method, NoMethod, StunMessage,
    StunMessageBuilder, StunPacket, StunTiming, TransId,
};
use is::{
    AgentCall, AgentSpec, Answer, Call, Candidate, CandidateBuilder, CandidateKind,
    DefaultSha1HmacProvider, Duration, Entry, FnPreference, IceAgent, IceAgentEvent, IceAgentStats,
    IceConnectionState, IceCreds, IceError, InFlight, Instant, Issued, LocalCandidates,
    LocalPreference, ParseFault, Path, PreferenceFunction, Protocol, RemoteCandidates, RunLog,
    Settings, Sha1HmacProvider, Side, SocketText, StunError, TcpType, Text, Trace, Transmit,
    TwoAgents, TwoAgentsEvent, World, WorldEntry, WorldEvent, WorldLog,
};
use std::alloc::AllocError;
use std::error::Error;
use std::fmt::{Debug, Display};
use std::hash::Hash;

type Boxed = Box<dyn LocalPreference>;

/// These types are named only in an alias: a call with such a type argument, which holds a boxed preference, is not
/// proved.
type Holders = (
    IceAgent<DefaultSha1HmacProvider>,
    (Call, AgentCall<Boxed>),
    AgentSpec<DefaultSha1HmacProvider>,
    (WorldEvent, TwoAgentsEvent<Boxed>),
    World<DefaultSha1HmacProvider>,
    TwoAgents<DefaultSha1HmacProvider, Boxed>,
);

fn is_reported<T: Debug>() {}

fn is_cloned<T: Clone>() {}

fn is_copied<T: Copy + Debug>() {}

fn is_compared<T: Eq + Debug>() {}

fn is_plain<T: Copy + Eq + Debug>() {}

fn is_key<T: Eq + Hash>() {}

fn is_ordered<T: Ord>() {}

fn has_default<T: Default>() {}

fn is_shown<T: Display>() {}

fn is_error<T: Error>() {}

fn is_from<T, U: From<T>>() {}

fn is_preference<P: LocalPreference>() {}

fn is_provider<H: Sha1HmacProvider>() {}

fn borrows<'a, I: Iterator<Item = &'a Candidate> + Clone>() {}

/// A caller's function is a preference.
fn of_function<F: PreferenceFunction>() {
    is_preference::<FnPreference<F>>();
}

fn plain_types() {
    is_plain::<Protocol>();
    is_plain::<TcpType>();
    is_plain::<Instant>();
    is_plain::<Duration>();
    is_plain::<SocketText>();
    is_compared::<Transmit>();
    is_cloned::<Text>();
    is_compared::<Text>();
    is_from::<Text, String>();
    is_plain::<DefaultSha1HmacProvider>();
    is_provider::<DefaultSha1HmacProvider>();
}

fn errors() {
    is_plain::<ParseFault>();
    is_plain::<StunError>();
    is_error::<StunError>();
    is_compared::<IceError>();
    is_error::<IceError>();
    is_from::<AllocError, IceError>();
}

fn messages() {
    is_plain::<Class>();
    is_plain::<Method>();
    is_plain::<Attributes<'static>>();
    is_plain::<TransId>();
    is_copied::<StunMessage<'static>>();
    is_copied::<StunPacket<'static>>();
    is_copied::<NoMethod>();
    is_copied::<HasMethod>();
    is_copied::<HasClass>();
    is_copied::<Builder<'static, HasMethod>>();
    is_copied::<StunMessageBuilder<'static, HasClass>>();
    is_reported::<StunTiming>();
}

fn candidates() {
    is_plain::<CandidateKind>();
    is_cloned::<Candidate>();
    is_compared::<Candidate>();
    is_copied::<NoProtocol>();
    is_copied::<HasProtocol<Udp>>();
    is_copied::<HasProtocol<Tcp>>();
    is_copied::<Udp>();
    is_copied::<Tcp>();
    is_copied::<NoRoute>();
    is_copied::<HasRoute>();
    is_copied::<CandidateBuilder<NoProtocol, NoRoute>>();
    is_copied::<CandidateBuilder<HasProtocol<Tcp>, HasRoute>>();
    is_preference::<Boxed>();
    borrows::<LocalCandidates<'static>>();
    borrows::<RemoteCandidates<'static>>();
}

fn pairs() {
    is_plain::<PairId>();
    is_plain::<CheckState>();
    is_plain::<NominationState>();
    is_copied::<BindingAttempt>();
    is_reported::<CandidatePair>();
}

fn agents() {
    is_cloned::<IceCreds>();
    is_compared::<IceCreds>();
    is_plain::<IceConnectionState>();
    is_plain::<IceAgentStats>();
    is_compared::<IceAgentEvent>();
    is_plain::<Settings>();
    is_plain::<Path>();
    is_plain::<Issued>();
}

fn runs() {
    is_compared::<Answer>();
    is_compared::<Entry>();
    is_compared::<RunLog>();
}

fn worlds() {
    is_plain::<Side>();
    is_plain::<Trace>();
    is_reported::<InFlight>();
    is_compared::<WorldEntry>();
    is_compared::<WorldLog>();
}

/// Types that are keys of maps, types that are ordered, and types that have a default.
fn keys_orders_and_defaults() {
    is_key::<Protocol>();
    is_key::<TcpType>();
    is_key::<TransId>();
    is_key::<CandidateKind>();
    is_key::<Candidate>();
    is_key::<Text>();
    is_key::<IceCreds>();
    is_ordered::<Instant>();
    is_ordered::<Duration>();
    is_ordered::<TransId>();
    has_default::<Attributes<'static>>();
    has_default::<NoMethod>();
    has_default::<Builder<'static, NoMethod>>();
    has_default::<StunTiming>();
    has_default::<CheckState>();
    has_default::<NominationState>();
    has_default::<IceAgentStats>();
}

/// Types that are written as text.
fn texts() {
    is_shown::<Text>();
    is_shown::<Protocol>();
    is_shown::<TcpType>();
    is_shown::<SocketText>();
    is_shown::<ParseFault>();
    is_shown::<StunError>();
    is_shown::<IceError>();
    is_shown::<CandidateKind>();
    is_shown::<Candidate>();
}

#[test]
fn types_have_their_traits() {
    plain_types();
    errors();
    messages();
    candidates();
    pairs();
    agents();
    runs();
    worlds();
    keys_orders_and_defaults();
    texts();
}
