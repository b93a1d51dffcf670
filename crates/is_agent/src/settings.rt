//! The settings of an agent.

ghost use Rattle.std.specs.Prelude.{◌≡◌, ◌<◌, Some};
ghost use Rattle.std.specs.Range.{range_inclusive_start, range_inclusive_end};
ghost use Rattle.is_agent.specs.View.{record_of};
ghost use Rattle.is_rules.specs.Settings.{controlling_set, SetsMtu, with_rtos, with_consent, with_profile, with_retransmits};
ghost use Rattle.is_rules.specs.Settings.{with_lite_timeout, numbers_skipped, settings_of, with_settings};
ghost use Rattle.is_rules.specs.Questions.{ice_timeout};

use crate::agent::Agent;
use is_candidate::LocalPreference;
use is_proto::{Duration, IceError, Sha1HmacProvider};
use is_rules::credentials::USERNAME_LIMIT;
use is_rules::settings::Settings;
use is_stun::stun::{ConsentSetting, Profile, StunTiming};
use std::ops::RangeInclusive;

/// The length of the longest check without NOMINATION in bytes: the header, the attributes with the longest USERNAME, MESSAGE-INTEGRITY
/// and FINGERPRINT.
const MTU_FLOOR: usize = 20 + (4 + USERNAME_LIMIT) + 12 + 8 + 4 + 24 + 8;

/// The length of the longest check with NOMINATION in bytes.
pub(crate) const CHECK_ROOM: usize = MTU_FLOOR + 8;

impl<H: Sha1HmacProvider + Drop, P: LocalPreference> Agent<H, P> {
    /// Sets how long packets may be, in bytes. The start of the range is the target, which `mtu` returns. Its end is the
    /// length from which packets cause a warning, which `mtu_warn` returns. A packet is as long as its message.
    ///
    /// Fails with `MtuTooSmall` if the target is below 588 bytes, the length of the longest check. With NOMINATION it is 8 bytes longer.
    pub fn set_mtu(&mut self, mtu: RangeInclusive<usize>) -> Result<(), IceError>
        ensures { SetsMtu (record_of self.old) (range_inclusive_start mtu) (range_inclusive_end mtu) result (record_of self.new) }
    {
        if *mtu.start() < MTU_FLOOR {
            return Err(IceError::MtuTooSmall);
        }
        self.mtu = *mtu.start();
        self.mtu_warn = *mtu.end();
        Ok(())
    }

    /// The greatest length of a packet in bytes: 1150 until it is set.
    pub fn mtu(&self) -> usize
        ensures { result ≡ (record_of self.now).mtu }
    {
        self.mtu
    }

    /// The length in bytes from which packets cause a warning: 1280 until it is set.
    pub fn mtu_warn(&self) -> usize
        ensures { result ≡ (record_of self.now).mtu_warn }
    {
        self.mtu_warn
    }

    /// Sets the number that resolves role conflicts: of two agents that claim the same role, the one with the greater
    /// tie-breaker keeps it (RFC 8445, section 7.3.1.1).
    pub fn set_control_tie_breaker(&mut self, tie_breaker: u64)
        ensures { record_of self.new ≡ record (record_of self.old) { tie_breaker = tie_breaker } }
    {
        self.tie_breaker = tie_breaker;
    }

    /// Sets the greatest number of pairs after forming (RFC 8445, section 6.1.2.5). It applies to existing pairs when pairs
    /// are formed next.
    pub fn set_max_candidate_pairs(&mut self, limit: usize)
        ensures { record_of self.new ≡ record (record_of self.old) { max_pairs = limit } }
    {
        self.max_pairs = limit;
    }

    /// Sets how many peer-reflexive candidates packets may bring of each side, discarded ones included: remote ones by requests,
    /// local ones by responses (RFC 8445, sections 7.3.1.3 and 7.2.5.3.1). None until it is set, which means no limit.
    ///
    /// At the limit an unknown sender replaces the first such candidate that has no pair. If each has one, its request is
    /// dropped without a response. A known sender is always served. A response counts as ever at the limit, and its mapped
    /// address is left out. At most as many sources are remembered for `DiscoveredRecv`: the newest ones. No such event is
    /// emitted while as many events wait to be polled. Set it before the first packet and the first timeout: what is there
    /// already stays.
    pub fn set_max_discovered(&mut self, limit: Option<usize>)
        ensures { record_of self.new ≡ record (record_of self.old) { max_discovered = limit } }
    {
        self.max_discovered = limit;
    }

    /// Sets how many candidates of each side may be listed when the program adds one, so that signaling forms no more pairs: a
    /// candidate beyond that is not added. Those that packets brought count; they come without regard to this limit. Discarded ones do
    /// not count. None until it is set, which means no limit.
    pub fn set_max_candidates(&mut self, limit: Option<usize>)
        ensures { record_of self.new ≡ record (record_of self.old) { max_candidates = limit } }
    {
        self.max_candidates = limit;
    }

    /// Whether the agent is an ICE-lite agent (RFC 8445, section 2.5).
    pub fn ice_lite(&self) -> bool
        ensures { result ≡ (record_of self.now).lite }
    {
        self.lite
    }

    /// Makes the agent a lite agent, or a full one.
    pub fn set_ice_lite(&mut self, lite: bool)
        ensures { record_of self.new ≡ record (record_of self.old) { lite = lite } }
    {
        self.lite = lite;
    }

    /// Whether each nomination replaces the ones before.
    pub fn renomination(&self) -> bool
        ensures { result ≡ (record_of self.now).renominates }
    {
        self.renominates
    }

    /// Sets whether each nomination replaces the ones before, so that both agents select the same path whatever priorities each
    /// has: false until it is set. Set it at both agents or at none, and before the first packet.
    ///
    /// A controlling agent then puts USE-CANDIDATE only on checks of the pair that it selected last. A controlled agent selects
    /// the pair on which it received the last request with USE-CANDIDATE, once a check of its own was answered on it. Until
    /// then it keeps the pair that it selected last. With a controlling peer that nominates several pairs and repeats
    /// USE-CANDIDATE on each, a controlled agent would change its path at each of these checks.
    ///
    /// With the profile `Modern` each nomination has a number besides, and a controlled agent goes by the greatest one.
    pub fn set_renomination(&mut self, renominates: bool)
        ensures { record_of self.new ≡ record (record_of self.old) { renominates = renominates } }
    {
        self.renominates = renominates;
    }

    /// All that a user may choose, as it is set: `Settings::original()` until it is changed.
    pub fn settings(&self) -> Settings
        ensures { result ≡ settings_of (record_of self.now) }
    {
        Settings {
            profile: self.timing.profile,
            timing_advance: self.timing_advance,
            initial_rto: self.timing.initial_rto,
            max_rto: self.timing.max_rto,
            max_retransmits: self.timing.max_retransmits,
            lite_timeout: self.timing.lite_timeout,
            consent: self.timing.consent,
            max_pairs: self.max_pairs,
            max_discovered: self.max_discovered,
            max_candidates: self.max_candidates,
            renomination: self.renominates,
        }
    }

    /// Sets all that a user may choose. Set it before the session: a due time that is fixed stays, unless an RTO changes. Each field has a
    /// setter of its own, too.
    pub fn set_settings(&mut self, settings: Settings)
        requires { 0 < settings.max_retransmits }
        ensures { record_of self.new ≡ with_settings settings (record_of self.old) }
    {
        let keeps_rtos = self.timing.initial_rto.0 == settings.initial_rto.0
            && self.timing.max_rto.0 == settings.max_rto.0;
        self.timing = StunTiming {
            initial_rto: settings.initial_rto,
            max_retransmits: settings.max_retransmits,
            max_rto: settings.max_rto,
            lite_timeout: settings.lite_timeout,
            profile: settings.profile,
            consent: settings.consent,
        };
        self.kept_consent = self.timing.consent();
        self.timing_advance = settings.timing_advance;
        self.max_pairs = settings.max_pairs;
        self.max_discovered = settings.max_discovered;
        self.max_candidates = settings.max_candidates;
        self.renominates = settings.renomination;
        if !keeps_rtos {
            self.pairs.reset_next_binding_attempts();
        }
    }

    /// Which behavior the agent has: `Profile::Original` until it is set.
    pub fn profile(&self) -> Profile
        ensures { result ≡ (record_of self.now).timing.profile }
    {
        self.timing.profile
    }

    /// Sets which behavior the agent has. Set it before the session: a due time that is fixed stays. The peer need not have the same
    /// profile.
    pub fn set_profile(&mut self, profile: Profile)
        ensures { record_of self.new ≡ with_profile profile (record_of self.old) }
    {
        self.timing.profile = profile;
        self.kept_consent = self.timing.consent();
    }

    /// What was chosen of consent (RFC 7675): by the timing and not strict, until it is set.
    pub fn consent(&self) -> ConsentSetting
        ensures { result ≡ (record_of self.now).timing.consent }
    {
        self.timing.consent
    }

    /// Sets how long the response to a check keeps a pair with the profile `Modern`. Without it the setting has no effect.
    pub fn set_consent(&mut self, consent: ConsentSetting)
        ensures { record_of self.new ≡ with_consent consent (record_of self.old) }
    {
        self.timing.consent = consent;
        self.kept_consent = self.timing.consent();
    }

    /// Sets the pacing interval of what the agent sends, Ta in RFC 8445, section 14.2.
    pub fn set_timing_advance(&mut self, advance: Duration)
        ensures { record_of self.new ≡ record (record_of self.old) { timing_advance = advance.0 } }
    {
        self.timing_advance = advance;
    }

    /// Sets the RTO after a pair's first check (RFC 8445, section 14.3). If the value changes, the due time of each pair's next check is
    /// computed again.
    pub fn set_initial_stun_rto(&mut self, rto: Duration)
        ensures { record_of self.new ≡ with_rtos rto.0 (record_of self.old).timing.max_rto.0 (record_of self.old) }
    {
        if self.timing.initial_rto.0 != rto.0 {
            self.timing.initial_rto = rto;
            self.kept_consent = self.timing.consent();
            self.pairs.reset_next_binding_attempts();
        }
    }

    /// Sets the greatest RTO after a check. If the value changes, the due time of each pair's next check is computed again.
    pub fn set_max_stun_rto(&mut self, rto: Duration)
        ensures { record_of self.new ≡ with_rtos (record_of self.old).timing.initial_rto.0 rto.0 (record_of self.old) }
    {
        if self.timing.max_rto.0 != rto.0 {
            self.timing.max_rto = rto;
            self.kept_consent = self.timing.consent();
            self.pairs.reset_next_binding_attempts();
        }
    }

    /// Sets how many checks a pair sends without a response before it is removed. The number must be at least 1.
    pub fn set_max_stun_retransmits(&mut self, number: usize)
        requires { 0 < number }
        ensures { record_of self.new ≡ with_retransmits number (record_of self.old) }
    {
        self.timing.max_retransmits = number;
        self.kept_consent = self.timing.consent();
    }

    /// Sets how long an ICE-lite agent keeps a pair without a check from its peer. The agent sends no checks, so the peer's are
    /// all that shows that the path works.
    ///
    /// The next `handle_timeout` call after this time removes the pair; with zero, the next call after a check. A pair on
    /// which no check arrived counts as checked at the first call with remote credentials. The value applies to existing
    /// pairs too. Full agents do not use it.
    pub fn set_lite_timeout(&mut self, timeout: Duration)
        ensures { record_of self.new ≡ with_lite_timeout timeout.0 (record_of self.old) }
    {
        self.timing.lite_timeout = timeout;
        self.kept_consent = self.timing.consent();
    }

    /// How long a pair is checked without a response before it is removed.
    pub fn ice_timeout(&self) -> Duration
        ensures { result.0 ≡ ice_timeout (record_of self.now) }
    {
        self.timing.timeout()
    }

    /// Sets the object that returns the preferences of local candidates that are added from now on (RFC 8445, section
    /// 5.1.2.1). If none is set, `default_local_preference` is used.
    pub fn set_local_preference(&mut self, preference: P)
        ensures { record_of self.new ≡ record (record_of self.old) { preference = Some preference } }
    {
        self.preference = Some(preference);
    }

    /// Whether the agent has the controlling role, and so nominates (RFC 8445, section 6.1.1).
    pub fn controlling(&self) -> bool
        ensures { result ≡ (record_of self.now).controlling }
    {
        self.controlling
    }

    /// Gives the agent the controlling or the controlled role. Existing pairs keep their priorities.
    ///
    /// With the profile `Modern` a lite agent is not made controlling: it stays as it is.
    pub fn set_controlling(&mut self, controlling: bool)
        ensures { record_of self.new ≡ controlling_set controlling (record_of self.old) }
    {
        if self.keeps_role() && controlling {
            return;
        }
        self.controlling = controlling;
    }

    /// Makes the number of the next pair at least this one.
    pub fn skip_pair_ids(&mut self, number: u64)
        ensures { record_of self.new ≡ numbers_skipped number (record_of self.old) }
    {
        self.next_number = self.next_number.max(number);
    }
}
