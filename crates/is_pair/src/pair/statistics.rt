//! Statistics of the checks and their responses.

ghost use Rattle.std.specs.Prelude.{◌≡◌, option_map};
ghost use Rattle.is_pair.specs.Checks.{last_round_trip};
ghost use Rattle.is_pair.specs.Pairs.{with_error};

use super::{CandidatePair, attempts};
use is_proto::Duration;

impl CandidatePair {
    /// Returns the round-trip time of the last pending transaction that had a response, or `None` if none had one.
    pub fn last_successful_rtt(&self) -> Option<Duration>
        ensures { option_map (λ took. took.0) result ≡ last_round_trip self.now.checks }
    {
        attempts::last_answered(&self.binding_attempts).and_then(|attempt| attempt.round_trip())
    }

    /// Returns how many checks were sent, also those that the pair no longer stores.
    pub fn checks_sent(&self) -> u64
        ensures { result ≡ self.now.checks_sent }
    {
        self.checks_sent
    }

    /// Returns how many checks of the peer arrived. On an ICE-lite agent, a pair that replaces another one begins with the
    /// other's number, and a pair without any counts one at the next `handle_timeout`.
    pub fn remote_binding_requests(&self) -> u64
        ensures { result ≡ self.now.requests }
    {
        self.remote_binding_requests
    }

    /// Returns the code of the last error response to a check of the pair, if one arrived.
    pub fn last_error(&self) -> Option<u16>
        ensures { result ≡ self.now.last_error }
    {
        self.last_error
    }

    /// Notes the code of an error response.
    pub(crate) fn note_error(&mut self, code: u16)
        ensures { self.new ≡ with_error code self.old }
    {
        self.last_error = Some(code);
    }

    /// Returns how many responses arrived, including repeated ones.
    pub fn responses_received(&self) -> u64
        ensures { result ≡ self.now.answers }
    {
        self.responses_received
    }

    /// Returns the sum of the round-trip times of all responses.
    pub fn total_round_trip_time(&self) -> Duration
        ensures { result.0 ≡ self.now.total_round_trip }
    {
        self.total_round_trip_time
    }
}
