//! What a TURN client has to send and to report.

ghost use Rattle.std.specs.Prelude.{◌≡◌, slice_set};
ghost use Rattle.is_stun.specs.MessageView.{message_view};
ghost use Rattle.is_turn.specs.Leases.{lease_polled};
ghost use Rattle.is_turn.specs.OneRelay.{is_packet};
ghost use Rattle.is_turn.specs.Places.{at_place};
ghost use Rattle.is_turn.specs.Turn.{known, alive_message};
ghost use Rattle.is_turn.specs.Relaying.{lease_event, lease_packet, client_packet, PollsTurn, after_poll, leases_after_poll, reported, client_event, session_after_event, leases_after_event};

use crate::lease::Lease;
use crate::places;
use crate::requests::write_request;
use crate::turn::{Packet, TurnClient, TurnEvent};
use is_proto::{Sha1HmacProvider, StunError};
use is_stun::stun::{Builder, StunMessage, TransId};

/// Returns the keep-alive: a Binding indication without attributes (RFC 8656, section 5).
fn alive_message(id: TransId) -> StunMessage<'static>
    ensures { message_view result ≡ alive_message id }
{
    Builder::new().binding().indication().build(id)
}

impl Lease {
    /// Returns what there is to report.
    fn event(&self) -> Option<TurnEvent>
        ensures { result ≡ lease_event self.now }
    {
        match (self.peer, self.report) {
            (Some(peer), Some(report)) => Some(TurnEvent::NotPermitted(peer.ip(), report.code)),
            _ => None,
        }
    }
}

impl<H: Sha1HmacProvider> TurnClient<H> {
    /// Returns the packet of a lease, or this one if there is none.
    fn lease_packet(&self, other: Packet) -> Packet
        ensures packet { result ≡ lease_packet self.now.leases.items other }
    {
        let Some(place) = places::sending_place(&self.leases) else {
            return other;
        };
        let lease = places::at_place(&self.leases, place);
        match lease.operation {
            Some(operation) => match operation.attempts.last {
                Some(attempt) => Packet::Lease(place, operation.request, attempt.id),
                None => other,
            },
            None => other,
        }
    }

    /// Returns what has to be sent.
    pub(crate) fn packet(&self) -> Packet
        ensures { result ≡ client_packet self.now.session self.now.leases.items }
    {
        match self.session.packet() {
            Packet::Request(request, id) => Packet::Request(request, id),
            Packet::Lease(place, request, id) => Packet::Lease(place, request, id),
            other => self.lease_packet(other),
        }
    }

    /// The packet of the lease in a place was polled.
    fn lease_polled(&mut self, place: usize)
        ensures session { self.new.session ≡ self.old.session }
        ensures credentials { self.new.credentials ≡ self.old.credentials }
        ensures leases { self.new.leases.items ≡ slice_set self.old.leases.items place (lease_polled (at_place place self.old.leases.items)) }
        ensures provider { self.new.provider ≡ self.old.provider }
    {
        if place < self.leases.len() {
            let lease = places::at_place(&self.leases, place);
            places::put(&mut self.leases, place, lease.polled());
        }
    }

    /// Writes the packet that is to be sent to the server to the front of the buffer, and returns its length. `None`: there is none.
    /// `BufferTooShort`: it does not fit; nothing is changed, and it can be polled again.
    pub fn poll_transmit(&mut self, buf: &mut [u8]) -> Result<Option<usize>, StunError>
        ensures packet { PollsTurn (H.mac self.old.provider) (known self.old.credentials) self.old.session self.old.leases.items
            buf.old result buf.new }
        ensures session { self.new.session ≡ after_poll result (client_packet self.old.session self.old.leases.items) self.old.session }
        ensures leases { self.new.leases.items
            ≡ leases_after_poll result (client_packet self.old.session self.old.leases.items) self.old.leases.items }
        ensures credentials { self.new.credentials ≡ self.old.credentials }
        ensures provider { self.new.provider ≡ self.old.provider }
    {
        match self.packet() {
            Packet::Nothing => Ok(None),
            Packet::Request(request, id) => {
                match write_request(
                    &request,
                    &id,
                    self.credentials.as_ref(),
                    buf,
                    &self.provider,
                ) {
                    Ok(len) => {
                        self.session.request_polled();
                        Ok(Some(len))
                    }
                    Err(error) => Err(error),
                }
            }
            Packet::Lease(place, request, id) => {
                match write_request(
                    &request,
                    &id,
                    self.credentials.as_ref(),
                    buf,
                    &self.provider,
                ) {
                    Ok(len) => {
                        self.lease_polled(place);
                        Ok(Some(len))
                    }
                    Err(error) => Err(error),
                }
            }
            Packet::KeepAlive(id) => match alive_message(id).to_bytes(None, buf, &self.provider) {
                Ok(len) => {
                    self.session.alive = None;
                    Ok(Some(len))
                }
                Err(error) => Err(error),
            },
        }
    }

    /// Whether there is something to send.
    pub(crate) fn has_packet(&self) -> bool
        ensures { result ≡ is_packet (client_packet self.now.session self.now.leases.items) }
    {
        match self.packet() {
            Packet::Nothing => false,
            _ => true,
        }
    }

    /// Returns what there is to report of a permission.
    fn report(&self) -> Option<TurnEvent>
        ensures { result ≡ (reported self.now.leases.items).1 }
    {
        let place = places::reported_place(&self.leases)?;
        places::at_place(&self.leases, place).event()
    }

    /// Returns what is to be reported next.
    pub(crate) fn next_event(&self) -> Option<TurnEvent>
        ensures { result ≡ client_event self.now.session self.now.leases.items }
    {
        if self.session.made.is_some() {
            return self.session.event();
        }
        match self.report() {
            Some(event) => Some(event),
            None => self.session.event(),
        }
    }

    /// Returns the first permission that the server barred, and that was not reported.
    fn take_report(&mut self) -> Option<TurnEvent>
        ensures leases { (self.new.leases.items, result) ≡ reported self.old.leases.items }
        ensures session { self.new.session ≡ self.old.session }
        ensures credentials { self.new.credentials ≡ self.old.credentials }
        ensures provider { self.new.provider ≡ self.old.provider }
    {
        let place = places::reported_place(&self.leases)?;
        let lease = places::at_place(&self.leases, place);
        places::put(&mut self.leases, place, lease.without_report());
        lease.event()
    }

    /// Returns what happened, if anything did: first `Allocated`, then each `NotPermitted`, then `Ended`.
    pub fn poll_event(&mut self) -> Option<TurnEvent>
        ensures event { result ≡ client_event self.old.session self.old.leases.items }
        ensures session { self.new.session ≡ session_after_event self.old.session self.old.leases.items }
        ensures leases { self.new.leases.items ≡ leases_after_event self.old.session self.old.leases.items }
        ensures credentials { self.new.credentials ≡ self.old.credentials }
        ensures provider { self.new.provider ≡ self.old.provider }
    {
        if self.session.made.is_some() {
            return self.session.take_event();
        }
        match self.take_report() {
            Some(event) => Some(event),
            None => self.session.take_event(),
        }
    }
}
