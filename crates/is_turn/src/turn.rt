//! A TURN client: one allocation, of one socket at one server, with permissions and channels of peers.

ghost use Rattle.std.specs.Prelude.{◌≡◌, ◌<◌, IfSome, IfOk, is_some, replicate, vec_len};
ghost use Rattle.std.specs.Option.{option_map};
ghost use Rattle.is_turn.specs.Credentials.{credentials_of};
ghost use Rattle.is_turn.specs.Leases.{unused};
ghost use Rattle.is_turn.specs.Session.{new_session, turn_started, turn_closed, turn_lost, next_turn_time};
ghost use Rattle.is_turn.specs.Turn.{known, key_now, kept_credentials};
ghost use Rattle.is_turn.specs.Relaying.{kept_leases, advanced_in, lease_due, sending_for, step_at, driven, TimesOut, lease_time, next_client_time};

use crate::credentials::Credentials;
use crate::lease::Lease;
use crate::outcome::Reason;
use crate::places;
use crate::requests::Request;
use crate::session::{Allocation, Ending, Phase, Session, Step};
use crate::timing::ClientTiming;
use is_proto::{Instant, Sha1HmacProvider};
use is_stun::stun::{AddressFamily, TransId};
use rand_core::Rng;
use std::alloc::{AllocError, Global};
use std::net::{IpAddr, SocketAddr};

/// What a client reports.
#[derive(Clone, Copy, Debug, PartialEq, Eq)]
pub enum TurnEvent {
    /// The server made an allocation: a relayed candidate, and a server-reflexive one.
    Allocated(Allocation),
    /// The server lets in no packets of this peer. The code of its error response; `None`: there was no response.
    NotPermitted(IpAddr, Option<u16>),
    /// The last event.
    Ended(Ending),
}

/// What a datagram was.
#[derive(Clone, Copy, Debug, PartialEq, Eq)]
pub enum TurnReceived<'a> {
    /// Not from the server.
    Other,
    /// A response that the client took.
    Own,
    /// From the server, and for nothing.
    Dropped(Reason),
    /// Data of this peer. It is not authenticated.
    Data(SocketAddr, &'a [u8]),
}

/// What a client has to send.
#[derive(Clone, Copy, Debug, PartialEq, Eq)]
pub(crate) enum Packet {
    Nothing,
    /// A request for the allocation, with this transaction ID.
    Request(Request, TransId),
    /// The request for the lease in a place.
    Lease(usize, Request, TransId),
    /// A Binding indication.
    KeepAlive(TransId),
}

/// A TURN client (RFC 8656): one allocation, of one socket at one server, with long-term credentials or without.
///
/// It has no socket, no clock and no random source. Call `handle_timeout` at the time of `poll_timeout`; then send what
/// `poll_transmit` writes to the server, and take what `poll_event` returns. Pass each datagram of the socket to `receive`. Data for a
/// peer goes to the server as `send` writes it.
#[derive(Drop)]
pub struct TurnClient<H> {
    pub(crate) provider: H,
    pub(crate) credentials: Option<Credentials>,
    pub(crate) session: Session,
    /// The permissions and channels.
    pub(crate) leases: Vec<Lease>,
}

/// Returns the key that a request is signed with now.
fn key_now(credentials: &Option<Credentials>) -> Option<[u8; 16]>
    ensures { result ≡ key_now (option_map credentials_of credentials.now) }
{
    match credentials {
        Some(credentials) => match &credentials.challenge {
            Some(challenge) => Some(challenge.key),
            None => None,
        },
        None => None,
    }
}

impl<H: Sha1HmacProvider> TurnClient<H> {
    /// Makes the client of a server. It does nothing before `start`. `family` is that of the relayed address, `lifetime` the one that
    /// is requested, in seconds. There are so many places for permissions and channels together; of these only the first 4096 are for
    /// channels. No later call allocates.
    pub fn new(
        alloc: Global,
        server: SocketAddr,
        credentials: Option<Credentials>,
        family: Option<AddressFamily>,
        timing: ClientTiming,
        lifetime: u32,
        places: usize,
        provider: H,
    ) -> Result<TurnClient<H>, AllocError>
    where
        H: Drop,
        ensures session { IfOk result (λ c. c.session ≡ new_session server family timing lifetime) }
        ensures credentials { IfOk result (λ c. c.credentials ≡ credentials) }
        ensures provider { IfOk result (λ c. c.provider ≡ provider) }
        ensures leases { IfOk result (λ c. c.leases.items ≡ replicate places unused) }
    {
        let mut leases = Vec::new(alloc);
        leases.resize(places, Lease::unused())?;
        Ok(TurnClient {
            provider,
            credentials,
            session: Session::new(server, family, timing, lifetime),
            leases,
        })
    }

    /// Starts: the next `handle_timeout` sends the first Allocate request. A further call does nothing.
    pub fn start(&mut self, now: Instant)
        ensures session { self.new.session ≡ turn_started now self.old.session }
        ensures credentials { self.new.credentials ≡ self.old.credentials }
        ensures leases { self.new.leases ≡ self.old.leases }
        ensures provider { self.new.provider ≡ self.old.provider }
    {
        self.session.start(now);
    }

    /// Returns the address of the server: another one after a redirection.
    pub fn server(&self) -> SocketAddr
        ensures { result ≡ self.now.session.server }
    {
        self.session.server
    }

    /// Returns what the server allocated, while it lasts.
    pub fn allocation(&self) -> Option<Allocation>
        ensures { result ≡ self.now.session.allocation }
    {
        self.session.allocation
    }

    /// Returns when to call `handle_timeout`. `None` before `start` and after `Ended`.
    pub fn poll_timeout(&self) -> Option<Instant>
        ensures { result ≡ next_client_time self.now.session self.now.leases.items }
    {
        let time = self.session.next_time()?;
        if self.session.phase == Phase::Ready {
            let lease = self.lease_time();
            Some(Instant(time.0.min(lease.0)))
        } else {
            Some(time)
        }
    }

    /// Returns when a lease has something due.
    fn lease_time(&self) -> Instant
        ensures { result.0 ≡ lease_time self.now.session.paced self.now.leases.items }
    {
        let due = places::earliest_due(&self.leases).max(self.session.paced);
        due.min(places::earliest_change(&self.leases))
    }

    /// Frees the allocation: `Ended` follows, after two requests at most.
    pub fn close(&mut self, now: Instant)
        ensures session { self.new.session ≡ turn_closed now (is_some self.old.credentials) self.old.session }
        ensures credentials { known self.new.credentials ≡ kept_credentials self.new.session (known self.old.credentials) }
        ensures leases { self.new.leases.items ≡ kept_leases self.new.session self.old.leases.items }
        ensures provider { self.new.provider ≡ self.old.provider }
    {
        let has_credentials = self.credentials.is_some();
        self.session.close(now, has_credentials);
        self.forget_if_ended();
        self.clear_if_ended();
    }

    /// The socket or connection to the server is gone: `Ended` follows, without a packet.
    pub fn lose(&mut self)
        ensures session { self.new.session ≡ turn_lost self.old.session }
        ensures credentials { known self.new.credentials ≡ kept_credentials self.new.session (known self.old.credentials) }
        ensures leases { self.new.leases.items ≡ kept_leases self.new.session self.old.leases.items }
        ensures provider { self.new.provider ≡ self.old.provider }
    {
        self.session.lose();
        self.forget_if_ended();
        self.clear_if_ended();
    }

    /// An ended client keeps no credentials.
    pub(crate) fn forget_if_ended(&mut self)
        ensures session { self.new.session ≡ self.old.session }
        ensures credentials { known self.new.credentials ≡ kept_credentials self.new.session (known self.old.credentials) }
        ensures leases { self.new.leases ≡ self.old.leases }
        ensures provider { self.new.provider ≡ self.old.provider }
    {
        if self.session.phase == Phase::Ended {
            self.credentials = None;
        }
    }

    /// An ended client has no leases, so it keeps no key.
    pub(crate) fn clear_if_ended(&mut self)
        ensures session { self.new.session ≡ self.old.session }
        ensures credentials { self.new.credentials ≡ self.old.credentials }
        ensures leases { self.new.leases.items ≡ kept_leases self.new.session self.old.leases.items }
        ensures provider { self.new.provider ≡ self.old.provider }
    {
        if self.session.phase == Phase::Ended {
            self.leases.clear();
        }
    }

    // ---- the clock

    /// While there is an allocation, leases lapse at their end, and those that are due are requested.
    fn advance_leases(&mut self, now: Instant)
        ensures session { self.new.session ≡ self.old.session }
        ensures credentials { self.new.credentials ≡ self.old.credentials }
        ensures leases { self.new.leases.items ≡ advanced_in self.new.session.phase now self.old.leases.items }
        ensures provider { self.new.provider ≡ self.old.provider }
    {
        if self.session.phase == Phase::Ready {
            places::advance_all(&mut self.leases, now);
        }
    }

    /// Returns the place of a lease whose request is due: the one of the allocation goes first, and a keep-alive last.
    fn lease_due(&self, now: Instant, step: Step) -> Option<usize>
        ensures place { result ≡ lease_due now step self.now.session self.now.leases.items }
        ensures within { IfSome result (λ place. place < vec_len self.now.leases) }
    {
        let is_idle_step = match step {
            Step::Nothing | Step::KeepAlive => true,
            _ => false,
        };
        if self.session.phase == Phase::Ready && is_idle_step && self.session.paced <= now {
            places::due_place(&self.leases, now)
        } else {
            None
        }
    }

    /// Does what the request for a lease has due.
    fn drive<R: Rng>(&mut self, now: Instant, place: usize, rng: &mut R)
        requires { place < vec_len self.old.leases }
        ensures leases { (self.new.leases.items, R.stream rng.new)
            ≡ driven now (key_now (known self.old.credentials)) place self.old.session (R.stream rng.old) self.old.leases.items }
        ensures session { self.new.session ≡ sending_for (step_at place self.old.session self.old.leases.items) now self.old.session }
        ensures credentials { self.new.credentials ≡ self.old.credentials }
        ensures provider { self.new.provider ≡ self.old.provider }
    {
        let timing = self.session.timing;
        let lease = places::at_place(&self.leases, place);
        match lease.step(&timing) {
            Step::Attempt => {
                let key = key_now(&self.credentials);
                let id = TransId::new(rng);
                places::put(
                    &mut self.leases,
                    place,
                    lease.attempted(now, id, key, &timing),
                );
                self.session.is_sending(now);
            }
            Step::Repeat => {
                places::put(&mut self.leases, place, lease.repeated(now, &timing));
                self.session.is_sending(now);
            }
            Step::TimeOut => places::put(&mut self.leases, place, lease.failed_at(now, None)),
            _ => {}
        }
    }

    /// Does what is due: sends one packet at most. Only a new attempt and a keep-alive take random bytes: 12, for the transaction ID.
    pub fn handle_timeout<R: Rng>(&mut self, now: Instant, rng: &mut R)
        ensures step { TimesOut now (key_now (known self.old.credentials)) (R.stream rng.old) self.old.session self.old.leases.items
            self.new.session self.new.leases.items (R.stream rng.new) }
        ensures credentials { known self.new.credentials ≡ kept_credentials self.new.session (known self.old.credentials) }
        ensures provider { self.new.provider ≡ self.old.provider }
    {
        self.advance_leases(now);
        let step = self.session.advance(now);
        match self.lease_due(now, step) {
            Some(place) => self.drive(now, place, rng),
            None => {
                let key = key_now(&self.credentials);
                self.session.take(now, step, key, rng);
            }
        }
        self.forget_if_ended();
        self.clear_if_ended();
    }
}
