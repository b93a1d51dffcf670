//! Serving a Binding request (RFC 8445, section 7.3): what is decided first; the agent's part: `is_agent::serving`.

ghost use Rattle.std.specs.Prelude.{◌≡◌, ◌<◌, ◌&&◌, false};
ghost use Rattle.is_rules.specs.RequestView.{request_view};
ghost use Rattle.is_rules.specs.Serving.{is_misled, is_admitted, needs_pair_at};

use crate::places::RemotePlace;
use crate::request::Request;
use crate::roles::Conflict;
use is_candidate::Candidate;

/// The candidates and the pair at which a request can be served.
#[derive(Clone, Copy, Debug, PartialEq, Eq)]
pub struct Places {
    /// The index of the local candidate that received the request.
    pub local: usize,
    /// Where the sender of the request is among the remote candidates.
    pub remote: RemotePlace,
    /// The number of the pair of both candidates, if there is one.
    pub pair: Option<u64>,
}

/// What serving a request needs, prepared before anything changes.
#[derive(Drop)]
pub struct Supplies {
    /// The buffer of the response.
    pub reply: Vec<u8>,
    /// The candidate that an unknown sender becomes.
    pub sender: Option<Candidate>,
}

/// The peer sends USE-CANDIDATE while the agent is controlling.
pub fn is_misled(controlling: bool, request: &Request<'_>) -> bool
    ensures { result ≡ is_misled controlling (request_view request.now) }
{
    controlling && request.use_candidate
}

/// Serving continues to the remote candidate: the request passes the rules on role conflicts and on USE-CANDIDATE. `controlling`
/// is the role before them.
pub fn is_admitted(conflict: Conflict, controlling: bool, request: &Request<'_>) -> bool
    ensures { result ≡ is_admitted conflict controlling (request_view request.now) }
{
    match conflict {
        Conflict::Absent => !is_misled(controlling, request),
        Conflict::Send487 => false,
        Conflict::SwitchRole => !is_misled(!controlling, request),
    }
}

/// There is no pair of the two candidates, and one would be added.
pub fn needs_pair_at(remote: RemotePlace, pair: Option<u64>, discarded: bool) -> bool
    ensures { result ≡ needs_pair_at remote pair discarded }
{
    match remote {
        RemotePlace::Barred | RemotePlace::Full => false,
        RemotePlace::Known(_) | RemotePlace::Unknown | RemotePlace::Vacant(_) => {
            pair.is_none() && !discarded
        }
    }
}
