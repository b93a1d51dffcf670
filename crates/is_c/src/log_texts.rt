//! What a line of a session's log says, and its text.

ghost use Rattle.std.specs.Prelude.{◌≡◌, ◌++◌, None, Some, IfOk, string_bytes};
ghost use Rattle.is_agent.specs.View.{record_of};
ghost use Rattle.is_c.specs.LogTexts.{state_word, check_word, removal_word, method_word, class_word};
ghost use Rattle.is_c.specs.LogTexts.{way_text, path_text, error_text, sent_text, answered_text, counts_text, pair_text, code_text, kind_text, reason_text, fate_text, said_text, line_text};

use crate::held::HeldAgent;
use is_agent::removed::{Removal, RemovedPair};
use is_agent::{IceConnectionState, Rejection, Unserved};
use is_pair::pair::CheckState;
use is_rules::emitted::Path;
use is_stun::stun::{Class, Method};
use std::alloc::{AllocError, Global};
use std::fmt;
use std::net::SocketAddr;

// ---- what a line says

/// What kind of message a datagram is.
#[derive(Clone, Copy)]
pub struct Kind {
    pub method: Method,
    pub class: Class,
    /// The error code of ERROR-CODE.
    pub error: Option<u16>,
}

/// Why a datagram is not accepted, or gets no response.
#[derive(Clone, Copy)]
pub enum Reason {
    Rejected(Rejection),
    Unanswered(Unserved),
}

/// What a line says.
#[derive(Clone, Copy)]
pub enum Said {
    /// A session starts, or restarts.
    Begins,
    /// The connection state changed to this one.
    Enters(IceConnectionState),
    /// A source was discovered.
    Discovers(SocketAddr),
    /// Media is sent from the first address to the second.
    Selects(SocketAddr, SocketAddr),
    /// Checks on the selected path have no responses now.
    Silent(SocketAddr, SocketAddr),
    /// A check on the selected path has a response again.
    Heard(SocketAddr, SocketAddr),
    /// A pair was removed. Its path is known while its candidates are listed.
    Loses(RemovedPair, Option<Path>),
    /// A datagram was not taken. Without a kind it is no message.
    Leaves(Option<Kind>, Option<Reason>, Path),
}

// ---- the words

fn state_word(state: IceConnectionState) -> &'static str
    ensures { result.now ≡ state_word state }
{
    match state {
        IceConnectionState::New => "New",
        IceConnectionState::Checking => "Checking",
        IceConnectionState::Connected => "Connected",
        IceConnectionState::Completed => "Completed",
        IceConnectionState::Disconnected => "Disconnected",
    }
}

fn check_word(state: CheckState) -> &'static str
    ensures { result.now ≡ check_word state }
{
    match state {
        CheckState::Waiting => "waiting",
        CheckState::InProgress => "in progress",
        CheckState::Succeeded => "succeeded",
    }
}

fn removal_word(why: Removal) -> &'static str
    ensures { result.now ≡ removal_word why }
{
    match why {
        Removal::NoResponse => "no response",
        Removal::ConsentLost => "consent lost",
        Removal::PeerSilent => "peer silent",
        Removal::Evicted => "evicted",
        Removal::Replaced => "replaced",
        Removal::Invalidated => "invalidated",
    }
}

fn method_word(method: Method) -> &'static str
    ensures { result.now ≡ method_word method }
{
    match method {
        Method::Binding => "Binding",
        Method::Allocate => "Allocate",
        Method::Refresh => "Refresh",
        Method::Send => "Send",
        Method::Data => "Data",
        Method::CreatePermission => "Create permission",
        Method::ChannelBind => "Channel bind",
        Method::Unknown => "Other",
    }
}

fn class_word(class: Class) -> &'static str
    ensures { result.now ≡ class_word class }
{
    match class {
        Class::Request => "request",
        Class::Indication => "indication",
        Class::Success => "success response",
        Class::Failure => "error response",
        Class::Unknown => "message",
    }
}

// ---- the texts

#[derive(Clone, Copy)]
struct Way(SocketAddr, SocketAddr);

impl fmt::Display for Way {
    ghost output = { λ t. Some (way_text t.0 t.1) };

    #[tactic(auto, unfolding(crate::specs::LogTexts::way_text))]
    fn fmt<W: fmt::Write>(&self, f: &mut fmt::Formatter<W>) -> fmt::Result {
        let source = self.0;
        let destination = self.1;
        write!(f, "{source} -> {destination}")
    }
}

#[derive(Clone, Copy)]
struct KnownPath(Option<Path>);

impl fmt::Display for KnownPath {
    ghost output = { λ t. Some (path_text t.0) };

    #[tactic(auto, unfolding(crate::specs::LogTexts::path_text))]
    fn fmt<W: fmt::Write>(&self, f: &mut fmt::Formatter<W>) -> fmt::Result {
        match self.0 {
            Some(path) => {
                let way = Way(path.source, path.destination);
                write!(f, "{way}")
            }
            None => f.write_str("unknown path"),
        }
    }
}

#[derive(Clone, Copy)]
struct LastError(Option<u16>);

impl fmt::Display for LastError {
    ghost output = { λ t. Some (error_text t.0) };

    #[tactic(auto, unfolding(crate::specs::LogTexts::error_text))]
    fn fmt<W: fmt::Write>(&self, f: &mut fmt::Formatter<W>) -> fmt::Result {
        match self.0 {
            Some(code) => write!(f, ", error response {code}"),
            None => Ok(()),
        }
    }
}

#[derive(Clone, Copy)]
struct Sent(u64);

impl fmt::Display for Sent {
    ghost output = { λ t. Some (sent_text t.0) };

    #[tactic(auto, unfolding(crate::specs::LogTexts::sent_text))]
    fn fmt<W: fmt::Write>(&self, f: &mut fmt::Formatter<W>) -> fmt::Result {
        let count = self.0;
        write!(f, ", {count} checks sent")
    }
}

#[derive(Clone, Copy)]
struct Answered(u64);

impl fmt::Display for Answered {
    ghost output = { λ t. Some (answered_text t.0) };

    #[tactic(auto, unfolding(crate::specs::LogTexts::answered_text))]
    fn fmt<W: fmt::Write>(&self, f: &mut fmt::Formatter<W>) -> fmt::Result {
        let count = self.0;
        write!(f, ", {count} answered")
    }
}

/// How many checks were sent, and how many success responses arrived.
#[derive(Clone, Copy)]
struct Counts(u64, u64);

impl fmt::Display for Counts {
    ghost output = { λ t. Some (counts_text t.0 t.1) };

    #[tactic(auto, unfolding(crate::specs::LogTexts::counts_text))]
    fn fmt<W: fmt::Write>(&self, f: &mut fmt::Formatter<W>) -> fmt::Result {
        let sent = Sent(self.0);
        let answered = Answered(self.1);
        write!(f, "{sent}{answered}")
    }
}

#[derive(Clone, Copy)]
struct Pair(RemovedPair, Option<Path>);

impl fmt::Display for Pair {
    ghost output = { λ t. Some (pair_text t.0 t.1) };

    #[tactic(auto, unfolding(crate::specs::LogTexts::pair_text))]
    fn fmt<W: fmt::Write>(&self, f: &mut fmt::Formatter<W>) -> fmt::Result {
        let path = KnownPath(self.1);
        let state = check_word(self.0.state);
        let counts = Counts(self.0.checks_sent, self.0.responses_received);
        let error = LastError(self.0.error);
        let why = removal_word(self.0.why);
        write!(f, "{path} {state}{counts}{error}: {why}")
    }
}

#[derive(Clone, Copy)]
struct Code(Option<u16>);

impl fmt::Display for Code {
    ghost output = { λ t. Some (code_text t.0) };

    #[tactic(auto, unfolding(crate::specs::LogTexts::code_text))]
    fn fmt<W: fmt::Write>(&self, f: &mut fmt::Formatter<W>) -> fmt::Result {
        match self.0 {
            Some(code) => write!(f, " {code}"),
            None => Ok(()),
        }
    }
}

#[derive(Clone, Copy)]
struct KindOf(Option<Kind>);

impl fmt::Display for KindOf {
    ghost output = { λ t. Some (kind_text t.0) };

    #[tactic(auto, unfolding(crate::specs::LogTexts::kind_text))]
    fn fmt<W: fmt::Write>(&self, f: &mut fmt::Formatter<W>) -> fmt::Result {
        match self.0 {
            Some(kind) => {
                let method = method_word(kind.method);
                let class = class_word(kind.class);
                let code = Code(kind.error);
                write!(f, "{method} {class}{code}")
            }
            None => f.write_str("malformed STUN message"),
        }
    }
}

#[derive(Clone, Copy)]
struct Because(Option<Reason>);

impl fmt::Display for Because {
    ghost output = { λ t. Some (reason_text t.0) };

    #[tactic(auto, unfolding(crate::specs::LogTexts::reason_text))]
    fn fmt<W: fmt::Write>(&self, f: &mut fmt::Formatter<W>) -> fmt::Result {
        match self.0 {
            Some(Reason::Rejected(why)) => write!(f, " ({why})"),
            Some(Reason::Unanswered(why)) => write!(f, " ({why})"),
            None => Ok(()),
        }
    }
}

/// A request that is accepted is not discarded.
#[tactic(auto, unfolding(crate::specs::LogTexts::fate_text))]
fn fate(why: Option<Reason>) -> &'static str
    ensures { result.now ≡ fate_text why }
{
    match why {
        Some(Reason::Unanswered(_)) => "no response to ",
        Some(Reason::Rejected(_)) | None => "discarded ",
    }
}

impl fmt::Display for Said {
    ghost output = { λ t. Some (said_text t) };

    #[tactic(auto, unfolding(crate::specs::LogTexts::said_text))]
    fn fmt<W: fmt::Write>(&self, f: &mut fmt::Formatter<W>) -> fmt::Result {
        match *self {
            Said::Begins => f.write_str("session begins"),
            Said::Enters(state) => {
                let state = state_word(state);
                write!(f, "state {state}")
            }
            Said::Discovers(source) => write!(f, "discovered {source}"),
            Said::Selects(source, destination) => {
                let way = Way(source, destination);
                write!(f, "selected {way}")
            }
            Said::Silent(source, destination) => {
                let way = Way(source, destination);
                write!(f, "silent {way}")
            }
            Said::Heard(source, destination) => {
                let way = Way(source, destination);
                write!(f, "heard again {way}")
            }
            Said::Loses(pair, path) => {
                let pair = Pair(pair, path);
                write!(f, "removed {pair}")
            }
            Said::Leaves(kind, why, path) => {
                let fate = fate(why);
                let kind = KindOf(kind);
                let because = Because(why);
                let source = path.source;
                let destination = path.destination;
                write!(f, "{fate}{kind}{because} from {source} at {destination}")
            }
        }
    }
}

/// The line: the local username fragment, a colon, and what is said.
pub fn line(alloc: Global, held: &HeldAgent, said: &Said) -> Result<String, AllocError>
    ensures { IfOk result (λ text. string_bytes text ≡ line_text (record_of held.now.agent).local_creds.ufrag said.now) }
{
    let ufrag = held.agent.local_credentials().ufrag.as_str();
    let mut text = String::from_str(alloc, ufrag)?;
    write!(text, ": {said}")?;
    Ok(text)
}

/// The kind of message and the reason, without addresses: equal for datagrams that differ only in these.
pub fn kind_line(
    alloc: Global,
    kind: Option<Kind>,
    why: Option<Reason>,
) -> Result<String, AllocError>
    ensures { IfOk result (λ text. string_bytes text ≡ kind_text kind ++ reason_text why) }
{
    let kind = KindOf(kind);
    let because = Because(why);
    let mut text = String::new(alloc);
    write!(text, "{kind}{because}")?;
    Ok(text)
}
