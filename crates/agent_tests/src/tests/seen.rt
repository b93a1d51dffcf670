//! What a step sees of an agent: its pairs, its candidates, and what its getters return.

use super::driver::Player;
use super::making::{later, packet, parsed};
use super::step::{At, Count, Held, Shown};
use super::story::same;
use super::*;
use is::pair::CheckState;
use is::{CandidateKind, Duration, IceAgentStats, Path, Rejection, Unserved};
use is_agent::removed::Removal;

/// What can be seen of a pair.
#[derive(Clone, Copy)]
struct SeenPair {
    number: u64,
    prio: u64,
    nominated: bool,
    state: CheckState,
    places: (usize, usize),
}

/// The pair whose remote candidate is equal to this one.
fn pair_with(agent: &Agent, remote: Option<Candidate>) -> Option<SeenPair> {
    let pair = agent.find_pair_for_equivalent_remote_candidate(&remote?)?;
    Some(SeenPair {
        number: pair.id().0,
        prio: pair.prio(),
        nominated: pair.is_nominated(),
        state: pair.state(),
        places: (pair.local_idx(), pair.remote_idx()),
    })
}

/// What the pair is.
fn pair_holds(seen: SeenPair, held: Held, alloc: Global, difference: &mut Option<String>) -> bool {
    match held {
        Held::Number(_, number) => same(seen.number, number, alloc, difference),
        Held::Prio(_, prio) => same(seen.prio, prio, alloc, difference),
        Held::PairState(_, state) => same(seen.state, state, alloc, difference),
        Held::Places(_, local, remote) => same(seen.places, (local, remote), alloc, difference),
        Held::Nominated(_) => seen.nominated,
        Held::HasPair(_, expected) => expected,
        _ => false,
    }
}

/// The line of the fact, if it is one of a pair.
fn line_of(held: Held) -> Option<&'static str> {
    match held {
        Held::HasPair(line, _)
        | Held::Number(line, _)
        | Held::Prio(line, _)
        | Held::PairState(line, _)
        | Held::Places(line, _, _)
        | Held::Nominated(line) => Some(line),
        _ => None,
    }
}

impl Player {
    /// The agent's pairs or candidates are as expected.
    pub(super) fn holds(&mut self, held: Held) -> bool {
        let Some(line) = line_of(held) else {
            return self.lists(held);
        };
        match pair_with(&self.agent, parsed(self.alloc, line)) {
            Some(seen) => pair_holds(seen, held, self.alloc, &mut self.difference),
            None => matches!(held, Held::HasPair(_, false)),
        }
    }

    /// The agent's candidates are as expected.
    fn lists(&mut self, held: Held) -> bool {
        match held {
            Held::Locals(places) => self.has_locals(places),
            Held::Remotes(places) => self.has_remotes(places),
            Held::FirstNamed(ufrag) => is_first(&self.agent, ufrag, None),
            Held::FirstIs(ufrag, prio) => is_first(&self.agent, ufrag, Some(prio)),
            Held::LastReflexive(base, prio) => is_last_reflexive(&self.agent, base, prio),
            Held::RemotesUnnamed => are_unnamed(&self.agent),
            Held::Removed(expected) => self.has_removed(expected),
            Held::LastRemoved(count, to, why) => self.has_last_removed(count, to, why),
            _ => false,
        }
    }

    /// The removed pairs are these, in this order.
    fn has_removed(&mut self, expected: &[(At, Removal, u64, Option<u16>)]) -> bool {
        let count = self.agent.removed_pair_count();
        if !self.compares(count, expected.len()) {
            return false;
        }
        for (index, (to, why, checks, error)) in expected.iter().enumerate() {
            let actual = removed_at(&self.agent, index);
            if !self.compares(actual, Some((to.socket(), *why, *checks, *error))) {
                return false;
            }
        }
        true
    }

    /// So many removed pairs are listed, and the last one is this.
    fn has_last_removed(&mut self, count: usize, to: At, why: Removal) -> bool {
        let actual = self.agent.removed_pair_count();
        if !self.compares(actual, count) {
            return false;
        }
        match removed_at(&self.agent, count.saturating_sub(1)) {
            Some((address, reason, _, _)) => self.compares((address, reason), (to.socket(), why)),
            None => false,
        }
    }

    /// The local candidates are at these addresses, in this order.
    fn has_locals(&mut self, places: &[At]) -> bool {
        let mut left = self.agent.local_candidates();
        for place in places {
            let Some(candidate) = left.next() else {
                return false;
            };
            if !same(
                candidate.addr(),
                place.socket(),
                self.alloc,
                &mut self.difference,
            ) {
                return false;
            }
        }
        left.next().is_none() && left.next().is_none()
    }

    /// The remote candidates are at these addresses, in this order.
    fn has_remotes(&mut self, places: &[At]) -> bool {
        let mut left = self.agent.remote_candidates();
        for place in places {
            let Some(candidate) = left.next() else {
                return false;
            };
            if !same(
                candidate.addr(),
                place.socket(),
                self.alloc,
                &mut self.difference,
            ) {
                return false;
            }
        }
        left.next().is_none() && left.next().is_none()
    }
}

/// The first local candidate has this username fragment, and this priority if one is given.
fn is_first(agent: &Agent, ufrag: &str, prio: Option<u32>) -> bool {
    match agent.local_candidates().next() {
        Some(candidate) => {
            candidate.ufrag() == Some(ufrag) && candidate.prio() == prio.unwrap_or(candidate.prio())
        }
        None => false,
    }
}

/// The last local candidate is a peer-reflexive one with this base and priority.
fn is_last_reflexive(agent: &Agent, base: At, prio: u32) -> bool {
    let mut found = false;
    for candidate in agent.local_candidates() {
        found = candidate.kind() == CandidateKind::PeerReflexive
            && candidate.local() == base.socket()
            && candidate.prio() == prio;
    }
    found
}

/// No remote candidate has a username fragment.
fn are_unnamed(agent: &Agent) -> bool {
    for candidate in agent.remote_candidates() {
        if candidate.ufrag().is_some() {
            return false;
        }
    }
    true
}

/// The destination of a removed pair, why it was removed, how many checks were sent, and the code of the last error response.
fn removed_at(agent: &Agent, index: usize) -> Option<(SocketAddr, Removal, u64, Option<u16>)> {
    let pair = agent.removed_pair(index)?;
    let path = agent.removed_pair_path(&pair)?;
    Some((path.destination, pair.why, pair.checks_sent, pair.error))
}

// ---- getters

impl Player {
    /// The agent's getters return this.
    pub(super) fn shows(&mut self, shown: Shown) -> bool {
        let agent = &self.agent;
        match shown {
            Shown::Controlling(controlling) => agent.controlling() == controlling,
            Shown::Lite(lite) => agent.ice_lite() == lite,
            Shown::KeepsRole(keeps) => agent.keeps_role() == keeps,
            Shown::Renomination(renominates) => agent.renomination() == renominates,
            Shown::Connected => agent.state().is_connected(),
            Shown::Disconnected => agent.state().is_disconnected(),
            Shown::Viable(at, viable) => agent.has_viable_remote_candidate(at.socket()) == viable,
            Shown::Mtu(mtu, mtu_warn) => agent.mtu() == mtu && agent.mtu_warn() == mtu_warn,
            Shown::LocalName(ufrag) => agent.local_credentials().ufrag.as_str() == ufrag,
            Shown::LocalNameLength(len) => agent.local_credentials().ufrag.as_str().len() == len,
            Shown::NoRemoteName => agent.remote_credentials().is_none(),
            Shown::Accepts(expected) => accepts(agent, &self.coming) == expected,
            Shown::AcceptsFrom(from, to, expected) => {
                accepts_packet(agent, packet(&self.coming, Protocol::Udp, from, to)) == expected
            }
            Shown::NoBareFailure => {
                StunMessage::parse(&BARE_FAILURE).is_ok() && !accepts(agent, &BARE_FAILURE)
            }
            Shown::Unused(unused) => (agent.stats() == IceAgentStats::default()) == unused,
            _ => self.compares_shown(shown),
        }
    }

    /// The agent's getters return this. The first value that is not the expected one is stored.
    fn compares_shown(&mut self, shown: Shown) -> bool {
        match shown {
            Shown::Rejects(from, to, expected) => {
                let actual = rejection(&self.agent, &self.coming, from, to);
                self.compares(actual, Some(expected))
            }
            Shown::LeavesUnserved(from, to, expected) => {
                let actual = unserved(&self.agent, &self.coming, from, to);
                self.compares(actual, Some(expected))
            }
            Shown::State(state) => {
                let actual = self.agent.state();
                self.compares(actual, state)
            }
            Shown::Settings(settings) => {
                let actual = self.agent.settings();
                self.compares(actual, settings)
            }
            Shown::IceTimeout(ms) => {
                let actual = self.agent.ice_timeout();
                self.compares(actual, millis(ms))
            }
            Shown::ValidPath(ends) => self.has_valid_path(ends),
            Shown::NextAt(ms) => {
                let next = self.agent.poll_timeout();
                self.compares(next, Some(later(ms)))
            }
            Shown::SoonAt(ms) => {
                let next = self.agent.next_call_soon();
                self.compares(next, Some(later(ms)))
            }
            Shown::NoNext => self.agent.poll_timeout().is_none(),
            Shown::Figures(last, total, count) => {
                self.has_figures(Some(millis(last)), Some(millis(total)), Some(count))
            }
            Shown::NoResponse => self.has_figures(None, Some(Duration(0)), Some(0)),
            Shown::NoFigures => self.has_figures(None, None, None),
            _ => false,
        }
    }

    /// The path of a valid pair of greatest priority is this one over UDP.
    fn has_valid_path(&mut self, ends: Option<(At, At)>) -> bool {
        let path = self.agent.valid_path();
        let expected = ends.map(|(source, destination)| Path {
            proto: Protocol::Udp,
            source: source.socket(),
            destination: destination.socket(),
        });
        self.compares(path, expected)
    }

    /// The figures of the selected pair: round-trip time of the last response and the total, and the number of responses.
    fn has_figures(
        &mut self,
        last: Option<Duration>,
        total: Option<Duration>,
        count: Option<u64>,
    ) -> bool {
        let figures = figures_of(&self.agent);
        self.compares(figures, (last, total, count))
    }

    /// The counter has this value.
    pub(super) fn counts(&mut self, count: Count, number: u64) -> bool {
        let stats = self.agent.stats();
        let actual = match count {
            Count::Checks => stats.bind_request_sent,
            Count::Responses => stats.bind_success_recv,
            Count::Requests => stats.bind_request_recv,
            Count::Discovered => stats.discovered_recv_count,
            Count::Nominations => stats.nomination_send_count,
        };
        self.compares(actual, number)
    }
}

fn millis(ms: u64) -> Duration {
    Duration::from_millis(ms)
}

fn figures_of(agent: &Agent) -> (Option<Duration>, Option<Duration>, Option<u64>) {
    (
        agent.nominated_pair_rtt(),
        agent.nominated_pair_total_rtt(),
        agent.nominated_pair_responses_received(),
    )
}

/// An error response with the id of twelve zeros and no attributes, so without MESSAGE-INTEGRITY.
const BARE_FAILURE: [u8; 20] = [
    0x01, 0x11, 0x00, 0x00, 0x21, 0x12, 0xa4, 0x42, 0, 0, 0, 0, 0, 0, 0, 0, 0, 0, 0, 0,
];

/// Whether it would accept the bytes, without regard to addresses.
fn accepts(agent: &Agent, bytes: &[u8]) -> bool {
    match StunMessage::parse(bytes) {
        Ok(message) => agent.accepts_message(&message),
        Err(_) => false,
    }
}

/// Why it would reject the bytes between these addresses; none if they are no message.
fn rejection(agent: &Agent, bytes: &[u8], from: At, to: At) -> Option<Option<Rejection>> {
    let packet = packet(bytes, Protocol::Udp, from, to)?;
    Some(agent.rejection(&packet))
}

/// Why it would send no response to the bytes between these addresses; none if they are no message.
fn unserved(agent: &Agent, bytes: &[u8], from: At, to: At) -> Option<Option<Unserved>> {
    let packet = packet(bytes, Protocol::Udp, from, to)?;
    Some(agent.unserved(&packet))
}

/// Whether it would accept the packet.
fn accepts_packet(agent: &Agent, packet: Option<StunPacket<'_>>) -> bool {
    match packet {
        Some(packet) => agent.accepts_packet(&packet),
        None => false,
    }
}
