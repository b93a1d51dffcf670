//! The words of stories: what is done to an agent, and what is seen of it then. A story is a table of these values. Only
//! the functions of the driver see an agent: each of them is proved, while a table needs no proof.

use super::*;
use is::pair::CheckState;
use is::{Profile, Rejection, Settings, Unserved};
use is_agent::removed::Removal;

/// The address 10.0.0.HOST:PORT.
#[derive(Clone, Copy)]
pub(super) struct At(pub(super) u8, pub(super) u16);

impl At {
    pub(super) fn socket(self) -> SocketAddr {
        SocketAddr::V4(SocketAddrV4::new(Ipv4Addr::new(10, 0, 0, self.0), self.1))
    }
}

/// A step of a story. Times are in milliseconds, and a `str` is a candidate attribute, if nothing else is said.
#[derive(Clone, Copy)]
pub(super) enum Step {
    /// A new agent replaces the one before.
    Begin(Start),
    /// A setting is changed.
    Set(Setting),
    /// The call succeeds: a candidate is stored, or one was there to be invalidated.
    Does(Call),
    /// The call fails, or returns false or none.
    Fails(Call),
    /// The call fails with this error.
    Errs(Call, Outcome),
    /// The next incoming bytes are this message, signed with the password.
    Write(Message, &'static str),
    /// The packet arrives, and is accepted.
    Takes(Packet),
    /// The packet arrives, and is not accepted.
    Drops(Packet),
    /// What is polled, and what was sent.
    Emits(Emitted),
    /// What its pairs and candidates are.
    Holds(Held),
    /// What its getters return.
    Shows(Shown),
    /// What its counters are.
    Counts(Count, u64),
}

/// How an agent begins.
#[derive(Clone, Copy)]
pub(super) enum Start {
    /// A controlled agent with this username fragment, password and tie-breaker.
    New(&'static str, &'static str, u64),
    /// The agent that the request of 100 bytes is for, at 10.0.0.1:1000, without the peer's credentials.
    Early,
    /// The agent that the request of 100 bytes is for, at 10.0.0.1:1000, with the peer's credentials.
    Known,
    /// A controlling agent at 10.0.0.1:1000 that has the peer's credentials, and no remote candidate.
    Unpaired,
    /// A controlling agent at 10.0.0.1:1000 that has the peer's credentials and one remote candidate, so one pair.
    Paired,
    /// An agent that is made with a given HMAC provider.
    Provided,
}

/// A setting.
#[derive(Clone, Copy)]
pub(super) enum Setting {
    /// The role, without a role conflict.
    Controlling(bool),
    /// The agent is an ICE-lite agent.
    Lite,
    /// How long a lite agent keeps a pair without a check of the peer.
    LiteTimeout(u64),
    /// The least number that a pair may get.
    FirstNumber(u64),
    /// The greatest number of pairs.
    MaxPairs(usize),
    /// The greatest number of candidates that packets bring of each side.
    MaxDiscovered(Option<usize>),
    /// The greatest number of candidates of each side that may be listed when one is added.
    MaxCandidates(Option<usize>),
    /// The initial RTO.
    InitialRto(u64),
    /// The initial RTO, in nanoseconds.
    InitialNanos(u64),
    /// The maximum RTO.
    MaxRto(u64),
    /// The pacing interval Ta.
    Pacing(u64),
    /// A pair is checked once at most without a response.
    OneCheck,
    /// A pair is checked twice at most without a response.
    TwoChecks,
    /// Eleven times.
    ElevenChecks,
    /// Each nomination replaces the ones before, or not.
    Renomination(bool),
    /// Which behavior it has.
    Profile(Profile),
    /// How long a response keeps a pair, in milliseconds, and whether consent is strict.
    Consent(u64, bool),
    /// All that a user may choose.
    All(Settings),
    /// The number that resolves role conflicts.
    TieBreaker(u64),
    /// The random words are those of the published example of PCG.
    Published,
}

/// The result of a call.
#[derive(Clone, Copy, Debug, PartialEq, Eq)]
pub(super) enum Outcome {
    /// The call succeeded, and returned true if it returned anything.
    Done,
    /// The call succeeded, and returned false or none.
    Nothing,
    PairIdsExhausted,
    MtuTooSmall,
    CredentialsTooLong,
    PriorityTooHigh,
    /// Memory ran out, or a candidate attribute was wrong.
    Other,
}

/// Which credentials a call sets.
#[derive(Clone, Copy)]
pub(super) enum Whose {
    Local,
    Remote,
    /// The local ones, by a restart that keeps the local candidates.
    Restarted,
    /// The local ones, by a restart that removes the local candidates.
    Emptied,
}

/// A call.
#[derive(Clone, Copy)]
pub(super) enum Call {
    /// Sets this username fragment and this password.
    Creds(Whose, &'static str, &'static str),
    /// Sets a username fragment of so many letters.
    Long(Whose, usize),
    /// Makes another agent with a username fragment of so many letters.
    LongAgent(usize),
    /// Adds a local host candidate over UDP.
    Host(At),
    /// Adds a local host candidate over UDP, which has this priority then.
    HostOf(At, u32),
    /// Adds a local candidate.
    Own(&'static str),
    /// Adds a local candidate of the greatest priority.
    OwnGreatest,
    /// Adds a remote candidate.
    Peer(&'static str),
    /// Adds so many candidates of the peer, at 10.0.0.2:2000, 10.0.0.3:2000 and so on, with falling priorities.
    Peers(u8),
    /// Invalidates the candidate that is equal to this one.
    Invalidate(&'static str),
    /// Forms the pairs again.
    Recreate,
    /// Sets the role.
    Control(bool),
    /// Sets how long packets may be, and from which length on they cause a warning.
    SetMtu(usize, usize),
    /// Calls `handle_timeout`.
    Timeout(u64),
    /// Calls `handle_timeout`, which sends a packet.
    Check(u64),
    /// Calls `handle_timeout`, which sends a packet from the first address to the second.
    CheckOn(u64, &'static str, &'static str),
    /// Calls `handle_timeout`, which sends a packet from 10.0.0.1:1000 to this address, with USE-CANDIDATE or without.
    CheckTo(u64, At, bool),
    /// Calls `handle_timeout`, which sends a packet to this address, with USE-CANDIDATE and NOMINATION of this number or with neither.
    CheckBy(u64, At, Option<u32>),
    /// Calls `handle_timeout` with the first random words of the published example of PCG. A packet is sent.
    CheckPublished(u64),
    /// Calls `handle_timeout` with random words of zeros. A packet is sent to this address, and its id is twelve zeros.
    CheckZeros(u64, At),
}

/// A message of the peer.
#[derive(Clone, Copy)]
pub(super) enum Message {
    /// The success response to the packet that was sent last, with this mapped address.
    Success(At),
    /// The error response 487 to the packet that was sent last.
    Conflict,
    /// An error response 400 to the packet that was sent last.
    BadRequest,
    /// A success response to no check.
    Stray,
    /// A request from `farr` to `near` with tie-breaker 10, which claims the controlling role or the other one, and has
    /// USE-CANDIDATE or not.
    Request(bool, bool),
    /// A request from `farr` to `near` with tie-breaker 10 that claims the controlling role, with USE-CANDIDATE or not, and has NOMINATION
    /// of this number.
    Nominates(bool, u32),
    /// A request from `farr` to `near` that claims no role.
    NoRole,
    /// A request from `farr` to `near` that claims the controlled role with tie-breaker 3, and has USE-CANDIDATE.
    Nomination,
    /// A request from `farr` to `near` that claims the controlling role with tie-breaker 9, and the controlled role with tie-breaker 1.
    BothRoles,
    /// A request from `SQAt` to `p9KA`, whose id begins with this number.
    Numbered(u8),
    /// A Binding indication, as some agents send it to keep a path.
    Indication,
    /// A request to a TURN server.
    Allocate,
}

/// A packet that arrives.
#[derive(Clone, Copy)]
pub(super) enum Packet {
    /// The request of 100 bytes, from 10.0.0.2:2000 to this address.
    Request(u64, At),
    /// The request of 100 bytes at 0, from 10.0.0.2:2000 to 10.0.0.1:1000 over this protocol.
    Over(Protocol),
    /// The written message, from 10.0.0.2:2000 to 10.0.0.1:1000.
    Next(u64),
    /// The written message, from the first address to the second.
    Between(u64, At, At),
    /// The written message, from this address to 10.0.0.1:1000; a success response of 64 bytes is sent.
    Served(u64, At),
    /// The written message, from this address to 10.0.0.1:1000; no packet is sent.
    Unserved(u64, At),
    /// The success response to the last check, from this address to 10.0.0.1:1000, which is its mapped address too.
    Answer(u64, At),
    /// The requests from `SQAt` to `p9KA` with the numbers below this one, each at 0.
    Many(u8),
}

/// What is polled, or was sent.
#[derive(Clone, Copy)]
pub(super) enum Emitted {
    /// A packet, which is the one that was sent last from now on.
    Sends,
    /// No packet.
    NoPacket,
    /// A packet or none.
    Polled,
    /// No packet and no event.
    Nothing,
    /// The last packet has this class and length.
    Sent(Class, usize),
    /// The last packet goes from the first address to the second.
    SentFrom(At, At),
    /// The last packet is a check of this length with the PRIORITY of a peer-reflexive candidate, with USE-CANDIDATE or without.
    Checked(usize, bool),
    /// The last packet claims the controlling role with this tie-breaker, and has this USERNAME.
    Claimed(u64, &'static str),
    /// The last packet is the response to the request of 100 bytes, signed with this password.
    Replied(&'static str),
    /// The last packet is signed with this password.
    Signed(&'static str),
    /// The last packet has this transaction ID.
    Id(TransId),
    /// So many `handle_timeout` calls at 0 send a success response each, to the requests of numbers from 1 on.
    RepliesInOrder(u8),
    /// The events, and no others: R for a restart, c, k, C and x for the states, D for a discovered source, N for a
    /// selected path.
    Events(&'static str),
    /// The next event reports a packet from this address as discovered.
    Discovers(Protocol, At),
    /// The next event reports this path over UDP as selected.
    Selects(At, At),
    /// The next event reports a restart with this username fragment.
    Restarts(&'static str),
    /// All events; the last path that they select has this destination.
    Selected(Option<At>),
    /// The next random word, which is drawn.
    Draws(u32),
    /// The last packet made the agent issue a packet on this path, and select none.
    Issued(At, At),
    /// Of so many rounds, in which only checks to the address are answered, the first that selects a path to it: its
    /// number, counted from 1, and its time.
    SelectedIn(u64, At, Option<(u64, u64)>),
}

/// What the pairs and candidates are.
#[derive(Clone, Copy)]
pub(super) enum Held {
    /// There is a pair with this remote candidate, or there is none.
    HasPair(&'static str, bool),
    /// The number of that pair.
    Number(&'static str, u64),
    /// The priority of that pair.
    Prio(&'static str, u64),
    /// The check state of that pair.
    PairState(&'static str, CheckState),
    /// The indices of that pair's candidates, the local one first.
    Places(&'static str, usize, usize),
    /// There is such a pair, and it is nominated.
    Nominated(&'static str),
    /// The local candidates are at these addresses, in this order.
    Locals(&'static [At]),
    /// The remote candidates are at these addresses, in this order.
    Remotes(&'static [At]),
    /// The username fragment of the first local candidate.
    FirstNamed(&'static str),
    /// The username fragment of the first local candidate, and its priority.
    FirstIs(&'static str, u32),
    /// The last local candidate is a peer-reflexive one with this base and priority.
    LastReflexive(At, u32),
    /// No remote candidate has a username fragment.
    RemotesUnnamed,
    /// The removed pairs are those to these addresses, in this order: why, how many checks were sent, and the code of the last error.
    Removed(&'static [(At, Removal, u64, Option<u16>)]),
    /// So many removed pairs are listed, and the last one is to this address, for this reason.
    LastRemoved(usize, At, Removal),
}

/// What the getters return.
#[derive(Clone, Copy)]
pub(super) enum Shown {
    Controlling(bool),
    Lite(bool),
    KeepsRole(bool),
    Renomination(bool),
    Settings(Settings),
    State(IceConnectionState),
    Connected,
    Disconnected,
    /// This address has a viable pair, or not.
    Viable(At, bool),
    /// The path of a valid pair of greatest priority: the local and the remote address, over UDP.
    ValidPath(Option<(At, At)>),
    /// The next timeout.
    NextAt(u64),
    /// The next call of an agent that changed: `next_call_soon`.
    SoonAt(u64),
    /// There is no next timeout.
    NoNext,
    /// The figures of the selected pair: round-trip time of the last response and the total, in milliseconds, and the
    /// number of responses.
    Figures(u64, u64, u64),
    /// The selected pair has no response.
    NoResponse,
    /// There is no selected pair.
    NoFigures,
    /// The local username fragment.
    LocalName(&'static str),
    /// The length of the local username fragment.
    LocalNameLength(usize),
    /// There are no remote credentials.
    NoRemoteName,
    /// How long a packet may be, and from which length on it causes a warning.
    Mtu(usize, usize),
    /// A pair without a response is removed after this time.
    IceTimeout(u64),
    /// The agent would accept the written message, without regard to addresses, or not.
    Accepts(bool),
    /// The agent would accept the written message between these addresses, or not.
    AcceptsFrom(At, At, bool),
    /// The agent would reject the written message between these addresses for this reason, or it would accept it.
    Rejects(At, At, Option<Rejection>),
    /// The agent would accept the written message between these addresses and send no response, for this reason; or it would send one, or not
    /// accept it.
    LeavesUnserved(At, At, Option<Unserved>),
    /// The agent would not accept an error response of no attribute with the id of twelve zeros.
    NoBareFailure,
    /// The statistics are those of a new agent, or not.
    Unused(bool),
}

/// A counter.
#[derive(Clone, Copy)]
pub(super) enum Count {
    Checks,
    Responses,
    Requests,
    Discovered,
    Nominations,
}
