//! What a TURN client does with a datagram: a response to one of its requests, or data of a peer.

ghost use Rattle.std.specs.Prelude.{◌≡◌, ◌⊎◌, ◌<◌, vec_len};
ghost use Rattle.std.specs.Option.{option_copied, option_map};
ghost use Rattle.is_stun.specs.MessageView.{message_view};
ghost use Rattle.is_turn.specs.Credentials.{forgotten, without_challenge};
ghost use Rattle.is_turn.specs.Turn.{known, challenge_taken, IsChallenged, OutcomeApplies};
ghost use Rattle.is_turn.specs.Relaying.{kept_leases};
ghost use Rattle.is_turn.specs.LeaseResponses.{LeaseIsChallenged, LeaseApplies, IsLeaseAnswered, heard_data};
ghost use Rattle.is_turn.specs.Peers.{DataIsRequested};
ghost use Rattle.is_turn.specs.Places.{channel_peer};
ghost use Rattle.is_turn.specs.Receipts.{received_view, other};
ghost use Rattle.is_turn.specs.Receiving.{IsAnswered, IsResponded, IsUnchanged, IsReceived, IsWhole, Answers, AnswersLease, OnlyByGenuine, KeepsPin};

use crate::alternate::alternate_in;
use crate::incoming::{Incoming, read_incoming};
use crate::lease::ip_of;
use crate::outcome::{Outcome, Reason, outcome_for, outcome_with};
use crate::places;
use crate::session::Phase;
use crate::turn::{TurnClient, TurnReceived};
use is_proto::{Instant, Sha1HmacProvider};
use is_stun::stun::StunMessage;
use std::net::SocketAddr;

impl<H: Sha1HmacProvider> TurnClient<H> {
    /// The server has shown that it knows the password.
    fn confirm(&mut self)
        ensures session { self.new.session ≡ self.old.session }
        ensures credentials { known self.new.credentials ≡ option_map forgotten (known self.old.credentials) }
        ensures leases { self.new.leases ≡ self.old.leases }
        ensures provider { self.new.provider ≡ self.old.provider }
    {
        if let Some(credentials) = &mut self.credentials {
            credentials.confirm();
        }
    }

    /// Takes the REALM and NONCE of a challenge. False, and nothing is changed, if they forbid to go on.
    fn take_challenge(&mut self, realm: Option<&str>, nonce: Option<&str>) -> bool
        ensures session { self.new.session ≡ self.old.session }
        ensures credentials { (known self.new.credentials, result)
            ≡ challenge_taken (option_copied realm.entry) (option_copied nonce.entry) (known self.old.credentials) }
        ensures leases { self.new.leases ≡ self.old.leases }
        ensures provider { self.new.provider ≡ self.old.provider }
    {
        match &mut self.credentials {
            Some(credentials) => credentials.take_challenge(realm, nonce),
            None => false,
        }
    }

    /// A challenge within the limits: another attempt, if its REALM and NONCE allow it.
    fn is_challenged(
        &mut self,
        now: Instant,
        is_signed: bool,
        code: u16,
        realm: Option<&str>,
        nonce: Option<&str>,
    ) -> TurnReceived<'static>
        ensures step { IsChallenged now is_signed code (option_copied realm.entry) (option_copied nonce.entry)
            self.old.session (known self.old.credentials) (received_view result) self.new.session (known self.new.credentials) }
        ensures leases { self.new.leases ≡ self.old.leases }
        ensures provider { self.new.provider ≡ self.old.provider }
    {
        if self.take_challenge(realm, nonce) {
            self.session.try_again(now, is_signed, code);
            TurnReceived::Own
        } else {
            self.session.doubt(code);
            TurnReceived::Dropped(Reason::Challenge)
        }
    }

    /// Applies what was decided, given the REALM and NONCE of the response.
    fn apply(
        &mut self,
        now: Instant,
        outcome: Outcome,
        realm: Option<&str>,
        nonce: Option<&str>,
    ) -> TurnReceived<'static>
        ensures step { OutcomeApplies now outcome (option_copied realm.entry) (option_copied nonce.entry)
            self.old.session (known self.old.credentials) (received_view result) self.new.session (known self.new.credentials) }
        ensures leases { self.new.leases ≡ self.old.leases }
        ensures provider { self.new.provider ≡ self.old.provider }
    {
        match outcome {
            Outcome::Dropped(reason) => TurnReceived::Dropped(reason),
            Outcome::Doubted(code) => {
                self.session.doubt(code);
                TurnReceived::Dropped(Reason::Unauthentic)
            }
            Outcome::Hinted(code) => {
                self.session.hint(now, code);
                TurnReceived::Own
            }
            Outcome::Challenged(is_signed, code) => {
                self.is_challenged(now, is_signed, code, realm, nonce)
            }
            Outcome::Allocated(since, seconds, allocation) => {
                self.confirm();
                self.session
                    .take_allocation(now, since, seconds, allocation);
                TurnReceived::Own
            }
            Outcome::Refreshed(since, seconds) => {
                self.confirm();
                self.session.take_refresh(since, seconds);
                self.forget_if_ended();
                TurnReceived::Own
            }
            Outcome::Lasting(_) => TurnReceived::Dropped(Reason::Unasked),
            Outcome::Redirected(server) => {
                self.session.follow(now, server);
                self.drop_challenge();
                self.forget_if_ended();
                TurnReceived::Own
            }
            Outcome::Failed(code) => {
                self.confirm();
                self.session.fail(now, Some(code));
                self.forget_if_ended();
                TurnReceived::Own
            }
        }
    }

    /// Another server has challenges of its own, while the password is known.
    fn drop_challenge(&mut self)
        ensures session { self.new.session ≡ self.old.session }
        ensures credentials { known self.new.credentials ≡ option_map without_challenge (known self.old.credentials) }
        ensures leases { self.new.leases ≡ self.old.leases }
        ensures provider { self.new.provider ≡ self.old.provider }
    {
        if let Some(credentials) = &mut self.credentials {
            credentials.drop_challenge();
        }
    }

    /// Does what is decided of a response to the request for the allocation.
    fn answer(
        &mut self,
        now: Instant,
        message: &StunMessage<'_>,
        alternate: Option<SocketAddr>,
    ) -> TurnReceived<'static>
        ensures step { IsAnswered (H.mac self.old.provider) now (message_view message.now) alternate
            self.old.session (known self.old.credentials) (received_view result) self.new.session (known self.new.credentials) }
        ensures leases { self.new.leases ≡ self.old.leases }
        ensures provider { self.new.provider ≡ self.old.provider }
    {
        let outcome = outcome_for(
            &self.session,
            self.credentials.as_ref(),
            message,
            alternate,
            &self.provider,
        );
        self.apply(now, outcome, message.realm(), message.nonce())
    }

    /// Takes a response to the request for the allocation.
    fn take_response(
        &mut self,
        now: Instant,
        message: &StunMessage<'_>,
        alternate: Option<SocketAddr>,
    ) -> TurnReceived<'static>
        ensures step { IsAnswered (H.mac self.old.provider) now (message_view message.now) alternate
            self.old.session (known self.old.credentials) (received_view result) self.new.session (known self.new.credentials) }
        ensures leases { self.new.leases.items ≡ kept_leases self.new.session self.old.leases.items }
        ensures provider { self.new.provider ≡ self.old.provider }
    {
        let received = self.answer(now, message, alternate);
        self.clear_if_ended();
        received
    }

    // ---- leases

    /// A challenge to the request for a lease, within the limits: another attempt, if its REALM and NONCE allow it.
    fn is_lease_challenged(
        &mut self,
        now: Instant,
        place: usize,
        is_signed: bool,
        code: u16,
        realm: Option<&str>,
        nonce: Option<&str>,
    ) -> TurnReceived<'static>
        requires { place < vec_len self.old.leases }
        ensures session { self.new.session ≡ self.old.session }
        ensures step { LeaseIsChallenged now place is_signed code (option_copied realm.entry) (option_copied nonce.entry)
            self.old.leases.items (known self.old.credentials) (received_view result) self.new.leases.items (known self.new.credentials) }
        ensures provider { self.new.provider ≡ self.old.provider }
    {
        let lease = places::at_place(&self.leases, place);
        if self.take_challenge(realm, nonce) {
            places::put(&mut self.leases, place, lease.another(now, is_signed, code));
            TurnReceived::Own
        } else {
            places::put(&mut self.leases, place, lease.doubted(code));
            TurnReceived::Dropped(Reason::Challenge)
        }
    }

    /// Applies what was decided of a response to the request for a lease, given its REALM and NONCE.
    fn apply_to_lease(
        &mut self,
        now: Instant,
        place: usize,
        outcome: Outcome,
        realm: Option<&str>,
        nonce: Option<&str>,
    ) -> TurnReceived<'static>
        requires { place < vec_len self.old.leases }
        ensures step { LeaseApplies now place outcome (option_copied realm.entry) (option_copied nonce.entry)
            self.old.session self.old.leases.items (known self.old.credentials)
            (received_view result) self.new.session self.new.leases.items (known self.new.credentials) }
        ensures provider { self.new.provider ≡ self.old.provider }
    {
        let lease = places::at_place(&self.leases, place);
        match outcome {
            Outcome::Dropped(reason) => TurnReceived::Dropped(reason),
            Outcome::Doubted(code) => {
                places::put(&mut self.leases, place, lease.doubted(code));
                TurnReceived::Dropped(Reason::Unauthentic)
            }
            Outcome::Hinted(code) => {
                let timing = self.session.timing;
                places::put(&mut self.leases, place, lease.hinted(now, code, &timing));
                TurnReceived::Own
            }
            Outcome::Challenged(is_signed, code) => {
                self.is_lease_challenged(now, place, is_signed, code, realm, nonce)
            }
            Outcome::Lasting(since) => {
                self.confirm();
                places::put(&mut self.leases, place, lease.lasts_since(since));
                TurnReceived::Own
            }
            Outcome::Failed(code) => {
                self.confirm();
                places::put(&mut self.leases, place, lease.failed_at(now, Some(code)));
                self.session.lease_failed(now, code);
                self.forget_if_ended();
                self.clear_if_ended();
                TurnReceived::Own
            }
            _ => TurnReceived::Dropped(Reason::Unasked),
        }
    }

    /// Takes a response to the request for the lease in a place.
    fn take_lease_response(
        &mut self,
        now: Instant,
        place: usize,
        message: &StunMessage<'_>,
    ) -> TurnReceived<'static>
        requires { place < vec_len self.old.leases }
        ensures step { IsLeaseAnswered (H.mac self.old.provider) now (message_view message.now) place
            self.old.session self.old.leases.items (known self.old.credentials)
            (received_view result) self.new.session self.new.leases.items (known self.new.credentials) }
        ensures provider { self.new.provider ≡ self.old.provider }
    {
        let lease = places::at_place(&self.leases, place);
        let outcome = outcome_with(
            self.session.phase,
            &lease.operation,
            self.credentials.as_ref(),
            message,
            None,
            &self.provider,
        );
        self.apply_to_lease(now, place, outcome, message.realm(), message.nonce())
    }

    /// Takes a response of the server.
    fn respond(
        &mut self,
        now: Instant,
        message: &StunMessage<'_>,
        alternate: Option<SocketAddr>,
    ) -> TurnReceived<'static>
        ensures step { IsResponded (H.mac self.old.provider) now (message_view message.now) alternate
            self.old.session self.old.leases.items (known self.old.credentials)
            (received_view result) self.new.session self.new.leases.items (known self.new.credentials) }
        ensures provider { self.new.provider ≡ self.old.provider }
    {
        match places::answered_place(&self.leases, message) {
            Some(place) => self.take_lease_response(now, place, message),
            None => self.take_response(now, message, alternate),
        }
    }

    // ---- data

    /// Returns the peer of a channel that is bound, or being bound.
    fn peer_of(&self, number: u16) -> Option<SocketAddr>
        ensures { result ≡ channel_peer number self.now.leases.items }
    {
        places::channel_peer(&self.leases, number)
    }

    /// Data of a peer: it counts while there is an allocation, if the peer's IP address has an open permission.
    fn hear<'a>(
        &mut self,
        now: Instant,
        peer: Option<SocketAddr>,
        contents: &'a [u8],
    ) -> TurnReceived<'a>
        ensures leases { (received_view result, self.new.leases.items)
            ≡ heard_data now peer contents.now self.old.session self.old.leases.items }
        ensures session { self.new.session ≡ self.old.session }
        ensures credentials { self.new.credentials ≡ self.old.credentials }
        ensures provider { self.new.provider ≡ self.old.provider }
    {
        let Some(peer) = peer else {
            return TurnReceived::Dropped(Reason::NotPermitted);
        };
        if self.session.phase != Phase::Ready {
            return TurnReceived::Dropped(Reason::NotPermitted);
        }
        if places::hear(&mut self.leases, ip_of(peer), peer, now) {
            TurnReceived::Data(peer, contents)
        } else {
            TurnReceived::Dropped(Reason::NotPermitted)
        }
    }

    /// Takes any datagram of the socket. Of the server's messages only a response to an attempt of a pending request changes anything
    /// but when a lease was used, and only a genuine one changes the allocation: with credentials one that is signed with the key of
    /// that attempt. Data counts if its peer was requested.
    pub fn receive<'a>(
        &mut self,
        now: Instant,
        source: SocketAddr,
        bytes: &'a [u8],
    ) -> TurnReceived<'a>
        ensures other { ¬ (source ≡ self.old.session.server) → IsUnchanged other
            self.old.session self.old.leases.items (known self.old.credentials)
            (received_view result) self.new.session self.new.leases.items (known self.new.credentials) }
        ensures state { source ≡ self.old.session.server → IsReceived (H.mac self.old.provider) now bytes.now
            self.old.session self.old.leases.items (known self.old.credentials)
            (received_view result) self.new.session self.new.leases.items (known self.new.credentials) }
        ensures only { IsWhole self.old.session (known self.old.credentials) self.new.session (known self.new.credentials)
            ⊎ (Answers source bytes.now self.old.session ⊎ AnswersLease source bytes.now self.old.session self.old.leases.items) }
        ensures asked { DataIsRequested (received_view result) self.old.session self.old.leases.items }
        ensures pinned { KeepsPin (known self.old.credentials) (known self.new.credentials) }
        ensures unauthentic { OnlyByGenuine (H.mac self.old.provider) bytes.now self.old.session self.old.leases.items
            (known self.old.credentials) self.new.session }
        ensures provider { self.new.provider ≡ self.old.provider }
    {
        if source != self.session.server {
            return TurnReceived::Other;
        }
        match read_incoming(bytes) {
            Incoming::Response(message) => {
                let alternate = alternate_in(bytes);
                self.respond(now, &message, alternate)
            }
            Incoming::Data(peer, contents) => self.hear(now, Some(peer), contents),
            Incoming::ChannelData(number, contents) => {
                let peer = self.peer_of(number);
                self.hear(now, peer, contents)
            }
            Incoming::Malformed => TurnReceived::Dropped(Reason::Malformed),
            Incoming::Unparsed => TurnReceived::Dropped(Reason::Unparsed),
            Incoming::Unasked => TurnReceived::Dropped(Reason::Unasked),
        }
    }
}
