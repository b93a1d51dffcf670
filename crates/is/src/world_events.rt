//! The events of the two-agent network model, and the entries of its log.

ghost use Rattle.std.specs.Prelude.{◌≡◌};
ghost use Rattle.is_stun.specs.Reading.{fault_of, message_of};
ghost use Rattle.is_rules.specs.Steps.{is_done};
ghost use Rattle.is_rules.specs.Effects.{is_clearing};
ghost use Rattle.is.specs.Views.{call_view, answer_view, entry_view};
ghost use Rattle.is.specs.World as world;
ghost use Rattle.is.specs.World.{outcome_of, read_unless};

use crate::calls::{AgentCall, Answer, Entry};
use is_candidate::LocalPreference;
use is_proto::{Instant, Protocol, Transmit};
use is_rules::emitted::{Issued, Path};
use is_stun::stun::{Class, StunMessage, TransId};
use std::net::SocketAddr;

/// One of the two agents of the network model.
#[derive(Clone, Copy, Debug, PartialEq, Eq)]
pub enum Side {
    A,
    B,
}

/// An in-flight packet, and its sender.
#[derive(Debug, Drop)]
pub struct InFlight {
    pub(crate) sender: Side,
    pub(crate) packet: Transmit,
}

/// An event of two agents whose local preferences may come from boxed objects.
pub type WorldEvent = TwoAgentsEvent<Box<dyn LocalPreference>>;

/// An event of two agents whose local preferences may come from an object of `P`.
#[derive(Drop)]
pub enum TwoAgentsEvent<P> {
    /// An agent is called. `Packet`, `SetControlling` and `SetControlTieBreaker` are not calls of the network model.
    Call(Side, AgentCall<P>),
    /// The next packet of the agent, if there is one, is sent: it becomes an in-flight packet.
    Poll(Side),
    /// An in-flight packet is delivered to the agent that did not send it, on any path. It can be delivered again.
    Deliver {
        /// The number of the packet, in the order in which packets were sent.
        packet: usize,
        /// When the packet is delivered.
        now: Instant,
        /// The protocol over which the packet is delivered.
        proto: Protocol,
        /// Where the packet comes from.
        source: SocketAddr,
        /// The local address to which the packet is delivered.
        destination: SocketAddr,
    },
    /// Bytes arrive that the other agent did not send: media, responses of other servers, an attacker's packets. An agent that
    /// would accept them does not receive them, and the answer is `NotInWorld`.
    Stray {
        /// The agent at which the bytes arrive.
        side: Side,
        /// When the bytes arrive.
        now: Instant,
        /// The protocol over which the bytes arrive.
        proto: Protocol,
        /// Where the bytes come from.
        source: SocketAddr,
        /// The local address at which the bytes arrive.
        destination: SocketAddr,
        /// The whole packet.
        bytes: Vec<u8>,
    },
}

/// A log entry: the result of one event.
#[derive(Debug, PartialEq, Eq, Drop)]
pub struct WorldEntry {
    /// The index of the event in the list, from 0.
    pub number: usize,
    /// What the call returned.
    pub answer: Answer,
    /// The packet that the event made an agent issue.
    pub issued: Option<Issued>,
    /// The paths that the event made an agent select, in order.
    pub announced: [Option<Path>; 2],
    /// Which agents are controlling after the event, A first.
    pub controlling: [bool; 2],
    /// The agent that was called, polled or delivered to. None if there was no such packet.
    pub side: Option<Side>,
    /// The event was an `ice_restart` or a `recreate_candidate_pairs` that returned Ok: the agent's pairs were cleared.
    pub clear: bool,
    /// What a delivered packet encodes. None if its bytes are not a STUN message, and for all other events.
    pub moved: Option<(Class, TransId)>,
}

/// The results of the events of an execution.
#[derive(Debug, PartialEq, Eq, Drop)]
pub struct WorldLog {
    /// One entry for each event, in order.
    pub entries: Vec<WorldEntry>,
    /// The allocation of the entries failed: nothing happened, and there is no entry.
    pub stopped: bool,
}

pub(crate) fn in_world<P>(call: &AgentCall<P>) -> bool
    ensures { result ≡ world.in_world (call_view call.now) }
{
    !matches!(
        call,
        AgentCall::Packet { .. } | AgentCall::SetControlling(_) | AgentCall::SetControlTieBreaker(_)
    )
}

pub(crate) fn is_clearing<P>(call: &AgentCall<P>) -> bool
    ensures { result ≡ is_clearing (call_view call.now) }
{
    matches!(
        call,
        AgentCall::RestartIce { .. } | AgentCall::RecreateCandidatePairs
    )
}

pub(crate) fn is_done(answer: &Answer) -> bool
    ensures { result ≡ is_done (answer_view answer.now) }
{
    matches!(answer, Answer::Done)
}

/// What bytes encode.
pub(crate) fn read_as(bytes: &[u8]) -> Option<(Class, TransId)>
    ensures { result ≡ read_unless (fault_of bytes.now) (message_of bytes.now) }
{
    match StunMessage::parse(bytes) {
        Ok(message) => Some((message.class(), message.trans_id())),
        Err(_) => None,
    }
}

/// The log entry of what an agent did.
pub(crate) fn emitted_as(
    entry: Entry,
    controlling: [bool; 2],
    side: Option<Side>,
    clear: bool,
    moved: Option<(Class, TransId)>,
) -> WorldEntry
    ensures emitted { outcome_of result ≡ record { entry = entry_view entry; controlling = controlling; side = side; clear = clear; moved = moved } }
    ensures numbered { result.number ≡ entry.number }
{
    let Entry {
        number,
        answer,
        issued,
        announced,
    } = entry;
    WorldEntry {
        number,
        answer,
        issued,
        announced,
        controlling,
        side,
        clear,
        moved,
    }
}
