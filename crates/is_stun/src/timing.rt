//! The retransmission timing of checks: the delay before each one, and the time that a full series of checks takes (RFC
//! 8489, section 6.2.1).

ghost use Rattle.std.specs.Prelude.{◌≡◌, ◌*◌, ◌^◌, ◌/◌, ◌-◌, ◌<◌, ◌≤◌, ℕ, min, None, false};
ghost use Rattle.is_proto.specs.Times.{MILLISECOND, SECOND};
ghost use Rattle.is_stun.specs.declared.timing.Profile.TheVariants.{Original};
ghost use Rattle.is_stun.specs.Timing.{consent_of, consent_timeout, early_delay, is_modern, is_modern_profile, resend_delay, last_resend_delay, timeout_of};

use is_proto::Duration;

/// How many checks are sent without a response, as in libwebrtc.
pub const DEFAULT_MAX_RETRANSMITS: usize = 9;

/// How many early retransmissions there are: two, so that on a path of 300 ms, whose first response comes after 600 ms, four checks are
/// sent by then, the last one after 400 ms.
const EARLY_RETRANSMITS: u64 = 2;

/// The delay before each early retransmission: below the 500 ms of RFC 8445, section 14.3, as that of other stacks.
const EARLY_INTERVAL: Duration = Duration(100_000_000);

/// The longest delay after the early retransmissions, while checks are repeated early. With one up to the longest RTO, a row of losses
/// costs seconds.
const EARLY_CAP: Duration = Duration(350_000_000);

/// Which behavior an agent has.
#[derive(Clone, Copy, Debug, PartialEq, Eq)]
pub enum Profile {
    /// The behavior of the Rust crate `is` 0.12.0.
    Original,
    /// What agents connect soonest with, and by which consent ends in time.
    Modern,
}

impl Profile {
    /// Whether this is `Modern`.
    pub fn is_modern(self) -> bool
        ensures { result ≡ is_modern_profile self }
    {
        match self {
            Profile::Original => false,
            Profile::Modern => true,
        }
    }
}

/// Returns how long to wait after the last of `send_count` checks before the next one, while a `Modern` agent repeats checks early.
pub fn early_delay(send_count: u64) -> Duration
    ensures { result.0 ≡ early_delay send_count }
{
    let doublings = send_count.saturating_sub(EARLY_RETRANSMITS);
    Duration(doubled(EARLY_INTERVAL.0, doublings as usize, EARLY_CAP.0))
}

/// What a user chooses of consent (RFC 7675).
#[derive(Clone, Copy, Debug, PartialEq, Eq)]
pub struct ConsentSetting {
    /// How long after its last check that got a response was sent a pair is kept. Each nanosecond counts. None: the longest RTO and a
    /// whole series of checks after it, so that no pair ends sooner than without consent.
    pub timeout: Option<Duration>,
    /// Whether only responses keep a pair, as in RFC 7675. Otherwise the peer's checks keep it too, each for 15 s.
    pub strict: bool,
}

/// How long a full agent keeps a pair after its last check that got a response (consent freshness, RFC 7675, section 5.1).
#[derive(Clone, Copy, Debug, PartialEq, Eq)]
pub struct Consent {
    /// How long after its last check that got a response was sent a pair is kept. Each nanosecond counts.
    pub timeout: Duration,
    /// Whether only responses keep a pair, as in RFC 7675. Otherwise the peer's checks keep it too, each for 15 s.
    pub strict: bool,
}

/// The retransmission timeouts (RTO) of checks, how many checks may go without a response before a path fails, and how
/// long an ICE-lite agent, which sends no checks, waits for those of its peer. A pair requires at least one retransmit.
#[derive(Debug, Drop)]
pub struct StunTiming {
    /// The delay after the first check; it doubles with each further check. Only whole milliseconds count.
    pub initial_rto: Duration,
    /// How many checks are sent; each waits for the delay after the previous one.
    pub max_retransmits: usize,
    /// The longest delay. Only whole milliseconds count.
    pub max_rto: Duration,
    /// How long an ICE-lite agent keeps a pair after the peer's last check on it. Each nanosecond counts. With zero, no check
    /// keeps a pair.
    pub lite_timeout: Duration,
    /// With `Modern` the checks of a pair without a response, and those that nominate it, are repeated early, and consent ends by the
    /// clock. With `Original` a pair is kept until enough checks have no response.
    pub profile: Profile,
    /// How long a response keeps a pair of a full agent with `Modern`.
    pub consent: ConsentSetting,
}

/// An initial RTO of 250 ms, 9 retransmits, a longest RTO of 3 s, and 15 s for an ICE-lite agent.
impl Default for StunTiming {
    ghost is_default = { λ t. t ≡ record { initial_rto = record { 0 = 250 * MILLISECOND }; max_retransmits = 9; max_rto = record { 0 = 3000 * MILLISECOND }; lite_timeout = record { 0 = 15 * SECOND }; profile = Original; consent = record { timeout = None; strict = false } } };

    fn default() -> StunTiming {
        StunTiming {
            initial_rto: Duration(250_000_000),
            max_retransmits: DEFAULT_MAX_RETRANSMITS,
            max_rto: Duration(3_000_000_000),
            lite_timeout: Duration(15_000_000_000),
            profile: Profile::Original,
            consent: ConsentSetting {
                timeout: None,
                strict: false,
            },
        }
    }
}

impl StunTiming {
    /// Returns how long a full series of checks without a response takes: the sum of the delays after the second check
    /// to the last, plus the last delay once more. A path that once had a response fails after this time.
    pub fn timeout(&self) -> Duration
        ensures { result.0 ≡ timeout_of self.now }
    {
        let growing = self.max_retransmits.min(self.steady_from());
        let mut total = Duration(0);
        for count in 2..growing + 1 {
            total = total.saturating_add(self.stun_resend_delay(count));
        }
        let last = self.stun_last_resend_delay();
        let steady = (self.max_retransmits - growing) as u64;
        total
            .saturating_add(Duration(last.0.saturating_mul(steady)))
            .saturating_add(last)
    }

    /// Returns how long to wait after the last of `send_count` checks before the next one: zero if there was none,
    /// otherwise `initial_rto`, doubled with each check after the first, and at most `max_rto`.
    pub fn stun_resend_delay(&self, send_count: usize) -> Duration
        ensures delay { result.0 ≡ resend_delay self.now send_count }
        ensures bounded { result.0 ≤ self.now.max_rto.0 / MILLISECOND * MILLISECOND }
        ensures rising { (fewer : ℕ) → fewer ≤ send_count → resend_delay self.now fewer ≤ result.0 }
    {
        if send_count == 0 {
            return Duration(0);
        }
        let doublings = (send_count - 1).min(self.max_retransmits);
        let first = self.initial_rto.as_millis();
        let greatest = self.max_rto.as_millis();
        Duration::from_millis(doubled(first, doublings, greatest))
    }

    /// Returns how long to wait after the last check before the path fails.
    pub fn stun_last_resend_delay(&self) -> Duration
        ensures { result.0 ≡ last_resend_delay self.now }
    {
        self.stun_resend_delay(self.max_retransmits)
    }

    /// Returns a count from which on no delay is longer than the one before: by then the doublings, even from 1 ms,
    /// exceed `max_rto`.
    fn steady_from(&self) -> usize
        ensures some { 0 < result }
        ensures few { result ≤ 65 }
        ensures steady { self.now.max_rto.0 / MILLISECOND < 2 ^ (result - 1) }
    {
        (u64::BITS - self.max_rto.as_millis().leading_zeros()) as usize + 1
    }

    /// Whether the profile is `Modern`.
    pub fn is_modern(&self) -> bool
        ensures { result ≡ is_modern self.now }
    {
        self.profile.is_modern()
    }

    /// Returns how long a response keeps a pair of a full agent. None: a pair is kept until enough checks have no response.
    pub fn consent(&self) -> Option<Consent>
        ensures { result ≡ consent_of self.now }
    {
        match self.profile {
            Profile::Original => None,
            Profile::Modern => Some(Consent {
                timeout: self.consent_timeout(),
                strict: self.consent.strict,
            }),
        }
    }

    /// Returns how long the response to a check keeps a pair.
    fn consent_timeout(&self) -> Duration
        ensures { result.0 ≡ consent_timeout self.now }
    {
        match self.consent.timeout {
            Some(timeout) => timeout,
            None => self.max_rto.saturating_add(self.timeout()),
        }
    }

    /// Returns how many checks are sent.
    pub fn max_retransmits(&self) -> usize
        ensures { result ≡ self.now.max_retransmits }
    {
        self.max_retransmits
    }

    /// Returns the longest delay.
    pub fn max_rto(&self) -> Duration
        ensures { result ≡ self.now.max_rto }
    {
        self.max_rto
    }

    /// Returns how long an ICE-lite agent keeps a pair after the peer's last check on it.
    pub fn lite_timeout(&self) -> Duration
        ensures { result ≡ self.now.lite_timeout }
    {
        self.lite_timeout
    }
}

/// Returns the number doubled `times` times, or `greatest` if that is less. No bits are lost: 64 doublings take any
/// number except zero past any `greatest`, and fit 128 bits.
fn doubled(number: u64, times: usize, greatest: u64) -> u64
    ensures { result ≡ min (number * 2 ^ times) greatest }
{
    let doubled = u128::from(number) << times.min(64);
    doubled.min(u128::from(greatest)) as u64
}
