//! Which path media takes, also across an ICE restart, and from where it is taken.

ghost use Rattle.std.specs.Prelude.{◌≡◌};
ghost use Rattle.is_agent.specs.View.{record_of};
ghost use Rattle.is_monitor.specs.Media.{previous_path, kept_path, leads_to, FindsMediaPath, takes_media_from};

use crate::monitor::Monitor;
use is_agent::Agent;
use is_candidate::LocalPreference;
use is_candidate::candidate::address::same_address;
use is_proto::{Instant, Sha1HmacProvider};
use is_rules::emitted::Path;
use std::net::SocketAddr;

/// Media to this path goes to that address.
fn leads_to(address: SocketAddr, path: Option<Path>) -> bool
    ensures { result ≡ leads_to address path }
{
    match path {
        Some(path) => same_address(path.destination, address),
        None => false,
    }
}

impl Monitor {
    /// The path before the last ICE restart, until consent to send on it ends.
    fn previous_path(&self, now: Instant) -> Option<Path>
        ensures { result ≡ previous_path now.0 self.now }
    {
        match self.previous {
            Some(previous) if now < previous.end => Some(previous.path),
            _ => None,
        }
    }

    /// The path before the last ICE restart, until consent to send on it ends or the new session selects a path.
    fn kept_path(&self, now: Instant) -> Option<Path>
        ensures { result ≡ kept_path now.0 self.now }
    {
        if self.is_restarted {
            self.previous_path(now)
        } else {
            None
        }
    }

    /// The path for media: the selected one. After an ICE restart the previous one, until a path is selected or consent to it ends (RFC
    /// 8445, section 12.1; RFC 7675). Else that of a valid pair. None: no media may be sent.
    pub fn media_path<H: Sha1HmacProvider + Drop, P: LocalPreference>(
        &self,
        agent: &Agent<H, P>,
        now: Instant,
    ) -> Option<Path>
        ensures { FindsMediaPath now.0 (record_of agent.now) self.now result }
    {
        if let Some(selected) = agent.selected_path() {
            return Some(selected);
        }
        match self.kept_path(now) {
            Some(kept) => Some(kept),
            None => agent.valid_path(),
        }
    }

    /// Whether media from this address is the peer's: it is where the selected path leads, or the previous one until consent to it ends.
    /// On a full agent also an address with a valid pair: a check there was answered with the peer's password. A lite agent takes no other,
    /// since there a check of the peer makes a pair valid, also one that somebody else sends again.
    pub fn takes_media_from<H: Sha1HmacProvider + Drop, P: LocalPreference>(
        &self,
        agent: &Agent<H, P>,
        now: Instant,
        source: SocketAddr,
    ) -> bool
        ensures { result ≡ takes_media_from now.0 (record_of agent.now) self.now source }
    {
        leads_to(source, agent.selected_path())
            || leads_to(source, self.previous_path(now))
            || (!agent.ice_lite() && agent.has_viable_remote_candidate(source))
    }
}
