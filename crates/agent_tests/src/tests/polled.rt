//! What a step polls of an agent, and how its rounds go.
//!
//! A round is one polling cycle: `poll_timeout` gives the time of the next `handle_timeout` call. After that call the
//! packets and events are polled, and packets arrive until the next one. By default the next timeout is 50 ms after
//! the last call while a pair is due (RFC 8445, section 14.2).

use super::driver::Player;
use super::making::numbered_id;
use super::sent::{
    check_length, claims, class_and_length, is_between, is_discovery, is_reply, is_restart,
    is_selection, is_signed, nominates, nomination, sent_id, sign_of,
};
use super::step::{At, Emitted, Outcome, Packet};
use super::story::same;
use super::*;
use is_agent::emitted::{last_issued, last_selected};
use rand_core::Rng;
use std::fmt::Debug;

impl Player {
    /// Whether the value is the expected one; the first one that is not is stored.
    pub(super) fn compares<T: Copy + PartialEq + Debug>(&mut self, actual: T, expected: T) -> bool {
        same(actual, expected, self.alloc, &mut self.difference)
    }

    /// What is polled, or the last packet, is as expected.
    pub(super) fn emits(&mut self, emitted: Emitted) -> bool {
        match emitted {
            Emitted::Sends => self.sends(),
            Emitted::NoPacket => self.sends_nothing(),
            Emitted::Polled => self.sends() || self.sends_nothing(),
            Emitted::Nothing => self.sends_nothing() && self.agent.poll_event().is_none(),
            Emitted::RepliesInOrder(count) => self.replies_in_order(count),
            Emitted::Events(letters) => self.has_events(letters),
            Emitted::Discovers(proto, from) => {
                is_discovery(&self.agent.poll_event(), proto, from)
            }
            Emitted::Selects(from, to) => is_selection(&self.agent.poll_event(), from, to),
            Emitted::Restarts(ufrag) => is_restart(&self.agent.poll_event(), ufrag),
            Emitted::Selected(to) => self.has_selected(to),
            Emitted::Draws(word) => self.draws(word),
            Emitted::Issued(from, to) => has_issued(&self.agent, from, to),
            Emitted::SelectedIn(rounds, to, expected) => self.is_selected_in(rounds, to, expected),
            _ => self.has_sent_so(emitted),
        }
    }

    /// The last packet is as expected.
    fn has_sent_so(&mut self, emitted: Emitted) -> bool {
        match emitted {
            Emitted::Sent(class, len) => self.has_sent(class, len),
            Emitted::SentFrom(source, destination) => self.has_sent_from(source, destination),
            Emitted::Checked(len, nominates) => {
                check_length(&self.sent) == Some(len) && self.has_nominated(nominates)
            }
            Emitted::Claimed(tie_breaker, username) => claims(&self.sent, tie_breaker, username),
            Emitted::Replied(pass) => is_reply(&self.sent, pass),
            Emitted::Signed(pass) => is_signed(&self.sent, pass),
            Emitted::Id(id) => self.has_id(id),
            _ => false,
        }
    }
}

// ---- packets

impl Player {
    /// The agent sends a packet, which is stored.
    pub(super) fn sends(&mut self) -> bool {
        self.sent = self.agent.poll_transmit();
        self.sent.is_some()
    }

    /// Polls for a packet, and there is none.
    pub(super) fn sends_nothing(&mut self) -> bool {
        self.agent.poll_transmit().is_none()
    }

    /// The last packet is of this class and length.
    pub(super) fn has_sent(&mut self, class: Class, len: usize) -> bool {
        let actual = class_and_length(&self.sent);
        self.compares(actual, Some((class, len)))
    }

    /// The last packet goes from the first address to the second.
    pub(super) fn has_sent_from(&self, source: At, destination: At) -> bool {
        is_between(&self.sent, source, destination)
    }

    /// The last packet has USE-CANDIDATE or not.
    pub(super) fn has_nominated(&mut self, expected: bool) -> bool {
        let actual = nominates(&self.sent);
        self.compares(actual, Some(expected))
    }

    /// The last packet has NOMINATION of this number, or none.
    pub(super) fn has_number(&mut self, expected: Option<u32>) -> bool {
        let actual = nomination(&self.sent);
        self.compares(actual, expected)
    }

    /// The last packet has this id.
    pub(super) fn has_id(&mut self, id: TransId) -> bool {
        let actual = sent_id(&self.sent);
        self.compares(actual, Some(id))
    }

    /// So many calls of `handle_timeout` send a success response each, to the requests of numbers 1, 2 and so on.
    fn replies_in_order(&mut self, count: u8) -> bool {
        for before in 0..count {
            let sent = self.checks(0)
                && self.has_sent(Class::Success, 64)
                && self.has_id(numbered_id(before.saturating_add(1)))
                && self.sends_nothing();
            if !sent {
                return false;
            }
        }
        true
    }
}

/// The last packet made the agent issue a packet on this path, and select none.
fn has_issued(agent: &Agent, from: At, to: At) -> bool {
    let issued = match last_issued(agent) {
        Some(issued) => {
            issued.path.source == from.socket() && issued.path.destination == to.socket()
        }
        None => false,
    };
    issued && last_selected(agent) == [None, None]
}

// ---- events

impl Player {
    /// The next random word is this one.
    fn draws(&mut self, expected: u32) -> bool {
        let word = self.rng.next_u32();
        self.compares(word, expected)
    }

    /// The letter of its next event.
    fn next_sign(&mut self) -> Option<char> {
        Some(sign_of(&self.agent.poll_event()?))
    }

    /// The agent emits these events, and no others.
    fn has_events(&mut self, letters: &str) -> bool {
        for expected in letters.chars() {
            let actual = self.next_sign();
            if !self.compares(actual, Some(expected)) {
                return false;
            }
        }
        let actual = self.next_sign();
        self.compares(actual, None)
    }

    /// Polls eight events at most; the destination of the last path that they select.
    fn selection(&mut self) -> Option<SocketAddr> {
        let mut last = None;
        for _ in 0..8 {
            match self.agent.poll_event() {
                Some(IceAgentEvent::NominatedSend { destination, .. }) => last = Some(destination),
                Some(_) => {}
                None => return last,
            }
        }
        last
    }

    /// The last path that the events select has this destination.
    fn has_selected(&mut self, to: Option<At>) -> bool {
        let expected = match to {
            Some(to) => Some(to.socket()),
            None => None,
        };
        let actual = self.selection();
        self.compares(actual, expected)
    }
}

// ---- rounds

impl Player {
    /// The next timeout in milliseconds; 0 if there is none.
    fn next_ms(&mut self) -> u64 {
        match self.agent.poll_timeout() {
            Some(Instant(nanos)) => nanos / 1_000_000,
            None => 0,
        }
    }

    /// If a check to the address is sent, its authentic success response arrives 10 ms later.
    fn answers_check_to(&mut self, ms: u64, to: At) -> bool {
        if !self.sends() || !self.has_sent_from(At(1, 1000), to) {
            return true;
        }
        self.receives(Packet::Answer(ms.saturating_add(10), to))
    }

    /// A round at this time, in which only checks to the address are answered; whether it selected the path to the
    /// address.
    fn selects_in_round(&mut self, ms: u64, to: At) -> bool {
        self.passes_to(ms) == Outcome::Done
            && self.answers_check_to(ms, to)
            && self.sends_nothing()
            && self.selection() == Some(to.socket())
    }

    /// The first of so many rounds that selects the path to the address: its number, counted from 1, and its time in
    /// milliseconds.
    fn is_selected_in(&mut self, rounds: u64, to: At, expected: Option<(u64, u64)>) -> bool {
        for round in 1..=rounds {
            let ms = self.next_ms();
            if self.selects_in_round(ms, to) {
                return self.compares(Some((round, ms)), expected);
            }
        }
        self.compares(None, expected)
    }
}
