//! The monitor of an agent: whether the selected path is silent, and what is left of it after an ICE restart.

ghost use Rattle.std.specs.Prelude.{◌≡◌, option_map};
ghost use Rattle.is_agent.specs.View.{record_of};
ghost use Rattle.is_monitor.specs.Monitors.{fresh_monitor, observed, silent_at, is_silent, silence_deadline, next_call, silent_since, to_report, next_silence, once_reported};
ghost use Rattle.is_monitor.specs.Monitors.{with_threshold, previous_of, previous_after, left, restarted};

use crate::watching::{Watched, selected_now, watched_after};
use is_agent::Agent;
use is_candidate::LocalPreference;
use is_proto::{Duration, Instant, Sha1HmacProvider};
use is_rules::emitted::Path;

/// Watches an agent: call `observe` after each packet that the agent accepted and each `handle_timeout`, and `restarted` before an ICE
/// restart.
#[derive(Clone, Copy)]
pub struct Monitor {
    /// After what time a path counts as silent; None: never.
    pub(crate) threshold: Option<Duration>,
    /// The selected path.
    pub(crate) watched: Option<Watched>,
    /// When the agent was observed last.
    pub(crate) seen: Instant,
    /// The path that was selected before the last ICE restart.
    pub(crate) previous: Option<Previous>,
    /// The agent was restarted, and no path was selected since.
    pub(crate) is_restarted: bool,
}

/// The path that was selected before an ICE restart.
#[derive(Clone, Copy)]
pub struct Previous {
    pub path: Path,
    /// When consent to send on the path ends, since nothing arrives on it that counts.
    pub end: Instant,
}

/// What is reported of the selected path.
#[derive(Clone, Copy)]
pub enum Silence {
    /// Nothing arrived on the path for the time that is set.
    Silent(Path),
    /// A response or a check of the peer arrived on the path again.
    Heard(Path),
}

/// What is to be reported of a path, by whether its silence was reported, and whether it is silent.
fn to_report(is_reported: bool, is_silent: bool, path: Path) -> Option<Silence>
    ensures { result ≡ to_report is_reported is_silent path }
{
    match (is_reported, is_silent) {
        (false, true) => Some(Silence::Silent(path)),
        (true, false) => Some(Silence::Heard(path)),
        _ => None,
    }
}

fn silent_at(threshold: Duration, watched: &Watched) -> Instant
    ensures { result.0 ≡ silent_at threshold watched.now }
{
    watched.heard + threshold
}

fn previous_of(consent: Duration, watched: Watched) -> Previous
    ensures { result ≡ previous_of consent.0 watched }
{
    Previous {
        path: watched.path,
        end: watched.consented + consent,
    }
}

impl Monitor {
    /// A monitor that has seen nothing yet. A path counts as silent after this time; None: never.
    pub fn new(threshold: Option<Duration>) -> Monitor
        ensures { result ≡ fresh_monitor threshold }
    {
        Monitor {
            threshold,
            watched: None,
            seen: Instant(0),
            previous: None,
            is_restarted: false,
        }
    }

    /// Observes the agent now: after a packet that it accepted, or after `handle_timeout`.
    pub fn observe<H: Sha1HmacProvider + Drop, P: LocalPreference>(
        &mut self,
        agent: &Agent<H, P>,
        now: Instant,
    )
        ensures { self.new ≡ observed now.0 (record_of agent.now) self.old }
    {
        let selected = selected_now(now, agent);
        self.is_restarted = self.is_restarted && selected.is_none();
        self.watched = watched_after(agent.ice_lite(), selected, self.watched);
        self.seen = now;
    }

    // ---- silence

    /// Sets after what time a path counts as silent; None: never. Silence that lasts is reported again.
    pub fn set_threshold(&mut self, threshold: Option<Duration>)
        ensures { self.new ≡ with_threshold threshold self.old }
    {
        self.threshold = threshold;
        if let Some(watched) = self.watched {
            self.watched = Some(Watched {
                is_reported: false,
                ..watched
            });
        }
    }

    /// Since when the selected path is silent: when a response or a check of the peer arrived on it last, or when it was selected, if
    /// that was later. None if no path is selected.
    pub fn silent_since(&self) -> Option<Instant>
        ensures { option_map (λ at. at.0) result ≡ silent_since self.now }
    {
        Some(self.watched?.heard)
    }

    /// When the selected path counts as silent if nothing arrives. None if that was reported already.
    pub fn silence_deadline(&self) -> Option<Instant>
        ensures { option_map (λ at. at.0) result ≡ silence_deadline self.now }
    {
        match (self.watched, self.threshold) {
            (Some(watched), Some(threshold)) if !watched.is_reported => {
                Some(silent_at(threshold, &watched))
            }
            _ => None,
        }
    }

    /// When to call `handle_timeout` next, if the agent's `poll_timeout` returned this time: when silence is to be reported, if that is
    /// sooner. But it is at least one pacing interval after the agent was observed last, so that no check is sent sooner than the agent
    /// would.
    pub fn next_call(&self, advance: Duration, at: Instant) -> Instant
        ensures { result.0 ≡ next_call advance.0 self.now at.0 }
    {
        match self.silence_deadline() {
            Some(silent) => at.min(silent.max(self.seen + advance)),
            None => at,
        }
    }

    fn is_silent(&self) -> bool
        ensures { result ≡ is_silent self.now }
    {
        match (self.watched, self.threshold) {
            (Some(watched), Some(threshold)) => silent_at(threshold, &watched) <= self.seen,
            _ => false,
        }
    }

    /// What is to be reported of the selected path, as of the last time that the agent was observed: once that it is silent, and once more
    /// when it is heard again.
    pub fn silence(&mut self) -> Option<Silence>
        ensures reported { result ≡ next_silence self.old }
        ensures once { self.new ≡ once_reported self.old }
    {
        let is_silent = self.is_silent();
        let watched = self.watched?;
        self.watched = Some(Watched {
            is_reported: is_silent,
            ..watched
        });
        to_report(watched.is_reported, is_silent, watched.path)
    }

    // ---- ICE restarts

    fn previous_after(&self, consent: Duration) -> Option<Previous>
        ensures { result ≡ previous_after consent.0 self.now.watched self.now }
    {
        match self.watched {
            Some(watched) => Some(previous_of(consent, watched)),
            None if self.is_restarted => self.previous,
            None => None,
        }
    }

    fn left(self, consent: Duration) -> Monitor
        ensures { result ≡ left consent.0 self }
    {
        Monitor {
            previous: self.previous_after(consent),
            is_restarted: true,
            watched: None,
            ..self
        }
    }

    /// The monitor after an ICE restart of this agent, which is still in its old session: what was the selected path is the previous one.
    pub fn restarted<H: Sha1HmacProvider + Drop, P: LocalPreference>(
        &self,
        agent: &Agent<H, P>,
    ) -> Monitor
        ensures { result ≡ restarted (record_of agent.now) self.now }
    {
        let mut last = *self;
        last.observe(agent, self.seen);
        last.left(agent.consent_time())
    }
}
