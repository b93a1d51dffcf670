//! The selected path, as it is watched.

ghost use Rattle.std.specs.Prelude.{◌≡◌};
ghost use Rattle.is_agent.specs.View.{record_of};
ghost use Rattle.is_monitor.specs.Watching.{newly_watched, selected_now, is_unheard, is_unanswered, watched_on, watched_after};

use is_agent::Agent;
use is_candidate::LocalPreference;
use is_pair::pair::CandidatePair;
use is_proto::{Instant, Sha1HmacProvider};
use is_rules::emitted::Path;

/// A selected path, and what was heard on it.
#[derive(Clone, Copy)]
pub struct Watched {
    pub path: Path,
    /// The number of the path's pair.
    pub pair: u64,
    /// How many responses and how many checks of the peer had arrived on the path.
    pub responses: u64,
    pub requests: u64,
    /// When the last response or check of the peer arrived, or when the path was selected, if that was later.
    pub heard: Instant,
    /// When consent to send was given last (RFC 7675): a response arrived, on a lite agent a check of the peer, or the path was selected.
    pub consented: Instant,
    /// Whether it was reported that the path is silent.
    pub is_reported: bool,
}

fn newly_watched(now: Instant, path: Path, pair: &CandidatePair) -> Watched
    ensures { result ≡ newly_watched now.0 path pair.now }
{
    Watched {
        path,
        pair: pair.id().0,
        responses: pair.responses_received(),
        requests: pair.remote_binding_requests(),
        heard: now,
        consented: now,
        is_reported: false,
    }
}

/// The selected path of the agent, watched from now on.
pub(crate) fn selected_now<H: Sha1HmacProvider + Drop, P: LocalPreference>(
    now: Instant,
    agent: &Agent<H, P>,
) -> Option<Watched>
    ensures { result ≡ selected_now now.0 (record_of agent.now) }
{
    match (agent.selected_path(), agent.nominated_pair()) {
        (Some(path), Some(pair)) => Some(newly_watched(now, path, pair)),
        _ => None,
    }
}

fn is_unheard(new: &Watched, old: &Watched) -> bool
    ensures { result ≡ is_unheard new.now old.now }
{
    new.responses == old.responses && new.requests == old.requests
}

fn is_unanswered(lite: bool, new: &Watched, old: &Watched) -> bool
    ensures { result ≡ is_unanswered lite new.now old.now }
{
    if lite {
        new.requests == old.requests
    } else {
        new.responses == old.responses
    }
}

/// A path that was watched before: each time stays the old one, unless something arrived on the path meanwhile.
fn watched_on(lite: bool, new: Watched, old: Watched) -> Watched
    ensures { result ≡ watched_on lite new old }
{
    let heard = if is_unheard(&new, &old) {
        old.heard
    } else {
        new.heard
    };
    let consented = if is_unanswered(lite, &new, &old) {
        old.consented
    } else {
        new.consented
    };
    Watched {
        heard,
        consented,
        is_reported: old.is_reported,
        ..new
    }
}

/// What is watched, if this is the selected path now, and that one was watched before.
pub(crate) fn watched_after(
    lite: bool,
    new: Option<Watched>,
    old: Option<Watched>,
) -> Option<Watched>
    ensures { result ≡ watched_after lite new old }
{
    match (new, old) {
        (Some(new), Some(old)) if new.pair == old.pair => Some(watched_on(lite, new, old)),
        (new, _) => new,
    }
}
