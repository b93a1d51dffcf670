//! Plays steps: sets up an agent, calls it, and passes packets to it. These functions have no contract, which keeps the
//! agent's guarantees out of their proofs.

use super::making::{creds, generator, later, packet, sent_packet, signed};
use super::sent::sent_id;
use super::step::{At, Call, Message, Outcome, Packet, Setting, Start, Step, Whose};
use super::*;
use is::{ConsentSetting, Duration};
use rand_core::SeedableRng;
use rand_pcg::Pcg32;

/// An agent, its random source and allocator, the packet that it sent last, the first comparison that failed, and the
/// bytes that the agent receives next.
#[derive(Drop)]
pub(super) struct Player {
    pub(super) agent: Agent,
    pub(super) rng: Pcg32,
    pub(super) alloc: Global,
    pub(super) sent: Option<Transmit>,
    pub(super) difference: Option<String>,
    pub(super) coming: Vec<u8>,
}

impl Player {
    /// A controlled agent with the timing of stories. Agents with different tie-breakers draw different ids.
    pub(super) fn new(
        alloc: Global,
        ufrag: &str,
        pass: &str,
        tie_breaker: u64,
    ) -> Result<Player, IceError> {
        let mut agent = Agent::new(alloc, creds(alloc, ufrag, pass)?, tie_breaker)?;
        times(&mut agent);
        Ok(Player {
            agent,
            rng: Pcg32::seed_from_u64(tie_breaker),
            alloc,
            sent: None,
            difference: None,
            coming: Vec::new(alloc),
        })
    }

    /// Whether the step holds.
    pub(super) fn makes(&mut self, step: &Step) -> bool {
        match *step {
            Step::Begin(start) => self.begins(start),
            Step::Set(setting) => self.sets(setting),
            Step::Does(call) => self.calls(call) == Outcome::Done,
            Step::Fails(call) => self.calls(call) != Outcome::Done,
            Step::Errs(call, error) => self.gives(call, error),
            Step::Write(message, pass) => self.writes(message, pass),
            Step::Takes(packet) => self.receives(packet),
            Step::Drops(packet) => !self.receives(packet),
            Step::Emits(emitted) => self.emits(emitted),
            Step::Holds(held) => self.holds(held),
            Step::Shows(shown) => self.shows(shown),
            Step::Counts(count, number) => self.counts(count, number),
        }
    }

    /// The call has this outcome.
    fn gives(&mut self, call: Call, expected: Outcome) -> bool {
        let outcome = self.calls(call);
        self.compares(outcome, expected)
    }
}

// ---- how it begins

impl Player {
    /// Replaces the agent by a new one.
    fn renews(&mut self, ufrag: &str, pass: &str, tie_breaker: u64) -> bool {
        match Player::new(self.alloc, ufrag, pass, tie_breaker) {
            Ok(mut player) => {
                player.difference = self.difference.take();
                *self = player;
                true
            }
            Err(_) => false,
        }
    }

    /// Replaces the agent by one with a given provider.
    fn renews_with_provider(&mut self) -> bool {
        let Ok(creds) = creds(self.alloc, "aaaa", "p") else {
            return false;
        };
        match IceAgent::with_hmac(self.alloc, creds, DefaultSha1HmacProvider, 1) {
            Ok(agent) => {
                self.agent = agent;
                true
            }
            Err(_) => false,
        }
    }

    fn begins(&mut self, start: Start) -> bool {
        match start {
            Start::New(ufrag, pass, tie_breaker) => self.renews(ufrag, pass, tie_breaker),
            Start::Early => self.renews("p9KA", PASSWORD, 1) && self.has_host(),
            Start::Known => {
                self.renews("p9KA", PASSWORD, 1) && self.knows("SQAt", "x") && self.has_host()
            }
            Start::Unpaired => self.begins_unpaired(),
            Start::Paired => {
                self.begins_unpaired() && self.calls(Call::Peer(PEER)) == Outcome::Done
            }
            Start::Provided => self.renews_with_provider(),
        }
    }

    fn begins_unpaired(&mut self) -> bool {
        self.renews("near", "nearpass", 7)
            && self.sets(Setting::Controlling(true))
            && self.knows("farr", "farpass")
            && self.has_host()
    }

    fn knows(&mut self, ufrag: &'static str, pass: &'static str) -> bool {
        self.calls(Call::Creds(Whose::Remote, ufrag, pass)) == Outcome::Done
    }

    fn has_host(&mut self) -> bool {
        self.calls(Call::Host(At(1, 1000))) == Outcome::Done
    }
}

// ---- settings

impl Player {
    fn sets(&mut self, setting: Setting) -> bool {
        let agent = &mut self.agent;
        match setting {
            Setting::Controlling(role) => agent.set_controlling(role),
            Setting::Lite => agent.set_ice_lite(true),
            Setting::LiteTimeout(ms) => agent.set_lite_timeout(Duration::from_millis(ms)),
            Setting::FirstNumber(number) => agent.skip_pair_ids(number),
            Setting::MaxPairs(pairs) => agent.set_max_candidate_pairs(pairs),
            Setting::MaxDiscovered(limit) => agent.set_max_discovered(limit),
            Setting::MaxCandidates(limit) => agent.set_max_candidates(limit),
            Setting::InitialRto(ms) => agent.set_initial_stun_rto(Duration::from_millis(ms)),
            Setting::InitialNanos(nanos) => agent.set_initial_stun_rto(Duration(nanos)),
            Setting::MaxRto(ms) => agent.set_max_stun_rto(Duration::from_millis(ms)),
            Setting::Pacing(ms) => agent.set_timing_advance(Duration::from_millis(ms)),
            Setting::OneCheck => agent.set_max_stun_retransmits(1),
            Setting::TwoChecks => agent.set_max_stun_retransmits(2),
            Setting::ElevenChecks => agent.set_max_stun_retransmits(11),
            Setting::Renomination(renominates) => agent.set_renomination(renominates),
            Setting::Profile(profile) => agent.set_profile(profile),
            Setting::Consent(ms, strict) => agent.set_consent(ConsentSetting {
                timeout: Some(Duration::from_millis(ms)),
                strict,
            }),
            Setting::All(settings) => {
                if settings.max_retransmits == 0 {
                    return false;
                }
                agent.set_settings(settings)
            }
            Setting::TieBreaker(number) => agent.set_control_tie_breaker(number),
            Setting::Published => self.rng = generator(),
        }
        true
    }
}

// ---- packets

impl Player {
    /// The next incoming bytes are this message, signed with the password.
    fn writes(&mut self, message: Message, pass: &str) -> bool {
        match signed(self.alloc, message, pass, sent_id(&self.sent)) {
            Some(bytes) => {
                self.coming = bytes;
                true
            }
            None => false,
        }
    }

    /// The written message arrives over UDP; whether the agent accepts it.
    fn takes(&mut self, ms: u64, source: At, destination: At) -> bool {
        take(
            &mut self.agent,
            ms,
            packet(&self.coming, Protocol::Udp, source, destination),
        )
    }

    /// The packet arrives; whether the agent accepts it, and does what is expected then.
    pub(super) fn receives(&mut self, arriving: Packet) -> bool {
        let here = At(1, 1000);
        match arriving {
            Packet::Request(ms, destination) => self.takes_request(ms, Protocol::Udp, destination),
            Packet::Over(proto) => self.takes_request(0, proto, here),
            Packet::Next(ms) => self.takes(ms, At(2, 2000), here),
            Packet::Between(ms, source, destination) => self.takes(ms, source, destination),
            Packet::Served(ms, source) => self.takes(ms, source, here) && self.replies(),
            Packet::Unserved(ms, source) => self.takes(ms, source, here) && self.sends_nothing(),
            Packet::Answer(ms, source) => {
                self.writes(Message::Success(here), "farpass") && self.takes(ms, source, here)
            }
            Packet::Many(numbers) => self.takes_many(numbers),
        }
    }

    /// The request of 100 bytes comes from 10.0.0.2:2000; whether the agent accepts it.
    fn takes_request(&mut self, ms: u64, proto: Protocol, destination: At) -> bool {
        take(
            &mut self.agent,
            ms,
            packet(&REQUEST, proto, At(2, 2000), destination),
        )
    }

    /// The last packet of another agent arrives at this one; whether it accepts it.
    pub(super) fn gets(&mut self, ms: u64, other: &Player) -> bool {
        take(&mut self.agent, ms, sent_packet(&other.sent))
    }

    /// The agent sends a success response of 64 bytes.
    fn replies(&mut self) -> bool {
        self.sends() && self.has_sent(Class::Success, 64)
    }

    /// The requests of numbers below this one arrive, each at 0.
    fn takes_many(&mut self, numbers: u8) -> bool {
        for number in 0..numbers {
            let written = self.writes(Message::Numbered(number), PASSWORD);
            if !written || !self.takes(0, At(2, 2000), At(1, 1000)) {
                return false;
            }
        }
        true
    }
}

/// Sets the timing from which the times in stories follow, whatever a new agent has: Ta is 50 ms, and of 9 checks without a response
/// the last ones are 3 s apart.
fn times(agent: &mut Agent) {
    agent.set_timing_advance(Duration::from_millis(50));
    agent.set_initial_stun_rto(Duration::from_millis(250));
    agent.set_max_stun_rto(Duration::from_millis(3000));
    agent.set_max_stun_retransmits(9);
}

/// The packet arrives; whether the agent accepts it.
fn take(agent: &mut Agent, ms: u64, packet: Option<StunPacket<'_>>) -> bool {
    match packet {
        Some(packet) => matches!(agent.handle_packet(later(ms), packet), Ok(true)),
        None => false,
    }
}
