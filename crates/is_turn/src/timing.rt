//! When a request is sent again (RFC 8489, section 6.2.1).

ghost use Rattle.std.specs.Prelude.{◌≡◌};
ghost use Rattle.is_turn.specs.Timing.{first_wait, next_wait, rfc, modern, reliable};

use is_proto::Duration;

/// How often a request is sent, and when. The waits double from `rto` up to `longest_wait`; after the last request the client waits
/// for `last_wait`.
#[derive(Clone, Copy, Debug, PartialEq, Eq)]
pub struct ClientTiming {
    /// RTO: the wait after the first request.
    pub rto: Duration,
    /// The longest wait, except after the last request.
    pub longest_wait: Duration,
    /// The wait after the last request.
    pub last_wait: Duration,
    /// Rc: how many times a request is sent; 0 counts as 1.
    pub requests: u32,
    /// How long after a response the next request is sent, so that the mapping stays (RFC 8445, section 11).
    pub keep_alive: Duration,
}

const RFC_REQUESTS: u32 = 7;

const MODERN_REQUESTS: u32 = 20;

impl ClientTiming {
    /// The values of RFC 8489: 7 requests, from 500 ms on, and a last wait of 16 RTO: 39.5 s in all.
    pub fn rfc() -> ClientTiming
        ensures { result ≡ rfc }
    {
        ClientTiming {
            rto: Duration(500_000_000),
            longest_wait: Duration(u64::MAX),
            last_wait: Duration(8_000_000_000),
            requests: RFC_REQUESTS,
            keep_alive: Duration(20_000_000_000),
        }
    }

    /// More requests, and sooner: 20, from 200 ms on and at most 1 s apart.
    pub fn modern() -> ClientTiming
        ensures { result ≡ modern }
    {
        ClientTiming {
            rto: Duration(200_000_000),
            longest_wait: Duration(1_000_000_000),
            last_wait: Duration(1_000_000_000),
            requests: MODERN_REQUESTS,
            keep_alive: Duration(20_000_000_000),
        }
    }

    /// Over TCP and TLS (RFC 8489, section 6.2.2): a request is sent once, and the client waits for Ti: 39.5 s.
    pub fn reliable() -> ClientTiming
        ensures { result ≡ reliable }
    {
        ClientTiming {
            rto: Duration(500_000_000),
            longest_wait: Duration(u64::MAX),
            last_wait: Duration(39_500_000_000),
            requests: 1,
            keep_alive: Duration(20_000_000_000),
        }
    }

    /// Returns the wait after the first request.
    pub(crate) fn first_wait(&self) -> Duration
        ensures { result.0 ≡ first_wait self.now }
    {
        if self.requests <= 1 {
            self.last_wait
        } else {
            Duration(self.rto.0.min(self.longest_wait.0))
        }
    }

    /// Returns the wait after the request with this count, given the wait before it.
    pub(crate) fn next_wait(&self, sent: u32, wait: Duration) -> Duration
        ensures { result.0 ≡ next_wait self.now sent wait.0 }
    {
        if self.requests <= sent {
            self.last_wait
        } else {
            Duration(wait.0.saturating_mul(2).min(self.longest_wait.0))
        }
    }
}
