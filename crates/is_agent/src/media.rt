//! What a caller needs to know for media: the selected path, and how long consent lasts.

ghost use Rattle.std.specs.Prelude.{◌≡◌};
ghost use Rattle.is_agent.specs.Media.{selected_path, consent_time};
ghost use Rattle.is_agent.specs.View.{record_of};

use crate::agent::Agent;
use is_candidate::LocalPreference;
use is_proto::{Duration, Sha1HmacProvider};
use is_rules::emitted::Path;

/// How long consent lasts after a response, if no other time is set (RFC 7675, section 5.1).
const CONSENT_TIME: Duration = Duration(30_000_000_000);

impl<H: Sha1HmacProvider + Drop, P: LocalPreference> Agent<H, P> {
    /// The path of the pair that was selected last: that of the last `NominatedSend`. None if the pair no longer exists. Does not
    /// allocate.
    pub fn selected_path(&self) -> Option<Path>
        ensures { result ≡ selected_path (record_of self.now) }
    {
        match self.nominated_pair() {
            Some(pair) => Some(self.path_of(pair)),
            None => None,
        }
    }

    /// How long media may go on after the last response on its path, or on a lite agent after the last check of the peer: as long as
    /// consent lasts by the settings, and 30 s with the profile `Original` (RFC 7675, section 5.1).
    pub fn consent_time(&self) -> Duration
        ensures { result.0 ≡ consent_time (record_of self.now) }
    {
        if self.lite {
            return self.timing.lite_timeout();
        }
        match self.timing.consent() {
            Some(consent) => consent.timeout,
            None => CONSENT_TIME,
        }
    }
}
