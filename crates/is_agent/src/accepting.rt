//! Which messages an agent accepts, and what a packet does (RFC 8445, section 7.3); the rules: `is_rules::accepting`.

ghost use Rattle.std.specs.Prelude.{◌≡◌, ◌↔◌, ℕ, IsTrue, IfSome, IfOk};
ghost use Rattle.is_stun.specs.declared.header.Class.TheVariants as classes;
ghost use Rattle.is_stun.specs.Integrity.{IsSignedBy};
ghost use Rattle.is_stun.specs.MessageView.{message_view};
ghost use Rattle.is_agent.specs.View.{record_of, emitted_of};
ghost use Rattle.is_rules.specs.RequestView.{packet_path};
ghost use Rattle.is_rules.specs.Answers.{keeps_check_on};
ghost use Rattle.is_agent.specs.Room.{HasDiscoveryRoom};
ghost use Rattle.is_rules.specs.Limit.{is_crowded};
ghost use Rattle.is_rules.specs.Accepting.{IsAddressed, IsAcceptedAs, IsAccepted, IsAcceptedOn, Arrives, reports_none, discovered_emitted};
ghost use Rattle.is_rules.specs.Accepting.{HandlesPacket};

use crate::agent::Agent;
use is_candidate::LocalPreference;
use is_proto::{IceError, Instant, Sha1HmacProvider};
use is_rules::accepting::{Source, is_discovered, is_dropped, is_same};
use is_rules::answers::keeps_any;
use is_rules::emitted::{Emitted, Path};
use is_rules::event::IceAgentEvent;
use is_rules::limit::{is_below, keep_newest};
use is_rules::request::{Request, packet_path};
use is_stun::stun::{Class, Method, StunMessage, StunPacket};

impl<H: Sha1HmacProvider + Drop, P: LocalPreference> Agent<H, P> {
    /// The username fragment is the peer's, if that is known.
    fn names_peer(&self, ufrag: &str) -> bool
        ensures { IsTrue result ↔ IfSome (record_of self.now).remote_creds (λ peer. ufrag.now ≡ peer.ufrag) }
    {
        match &self.remote_creds {
            Some(peer) => is_same(ufrag, peer.ufrag.as_str()),
            None => true,
        }
    }

    /// The USERNAME is the agent's own username fragment, a colon and the peer's, if that is known.
    pub(crate) fn is_addressed(&self, message: &StunMessage<'_>) -> bool
        ensures { IsTrue result ↔ IsAddressed (record_of self.now) (message_view message.now) }
    {
        match message.split_username() {
            Some((own, peers)) => {
                is_same(own, self.local_creds.ufrag.as_str()) && self.names_peer(peers)
            }
            None => false,
        }
    }

    /// The message is signed with the agent's own password.
    pub(crate) fn is_by_local(&self, message: &StunMessage<'_>) -> bool
        ensures { IsTrue result ↔ IsSignedBy (H.mac (record_of self.now).provider) (message_view message.now) (record_of self.now).local_creds.pass }
    {
        let password = self.local_creds.pass.as_str().as_bytes();
        message.verify(password, &self.by_local_key())
    }

    fn accepts_request(&self, message: &StunMessage<'_>) -> bool
        ensures { IsTrue result ↔ (IsAddressed (record_of self.now) (message_view message.now)
            × IsSignedBy (H.mac (record_of self.now).provider) (message_view message.now) (record_of self.now).local_creds.pass) }
    {
        self.is_addressed(message) && self.is_by_local(message)
    }

    /// Whether the agent accepts the message, as far as the message shows: a Binding request whose USERNAME is the agent's
    /// own username fragment, a colon and the peer's fragment, if that is known, and which is signed with the agent's
    /// password (RFC 8445, section 7.3); or a Binding success or error response with the ID of a pending transaction,
    /// signed with the peer's password. Does not allocate. A message that was built, not parsed, is never accepted.
    pub fn accepts_message(&self, message: &StunMessage<'_>) -> bool
        ensures { IsTrue result ↔ IsAccepted H.mac (record_of self.now) (message_view message.now) }
    {
        if message.method() != Method::Binding {
            return false;
        }
        match message.class() {
            Class::Request => self.accepts_request(message),
            Class::Success | Class::Failure => {
                keeps_any(&self.pairs, message.trans_id()) && self.is_by_peer(message)
            }
            _ => false,
        }
    }

    /// Whether `handle_packet` accepts the packet: the message is accepted (`accepts_message`), and a response was received
    /// on the reverse path of the pair with its pending transaction, from the remote address to the local base. `rejection`
    /// says why it does not. Does not allocate.
    pub fn accepts_packet(&self, packet: &StunPacket<'_>) -> bool
        ensures { IsTrue result ↔ IsAcceptedOn H.mac (record_of self.now) (packet_path packet.now) (message_view packet.now.message) }
    {
        self.rejection(packet).is_none()
    }

    /// As many events wait to be polled as the limit on discovered candidates allows sources.
    fn is_crowded(&self) -> bool
        ensures { result ≡ is_crowded (record_of self.now) }
    {
        !is_below(self.max_discovered, self.events.len())
    }

    /// With `Modern`, a request that is dropped reports no source.
    fn reports_none(&self, class: Class, emitted: &Emitted) -> bool
        ensures { result ≡ reports_none class emitted.now (record_of self.now) }
    {
        self.timing.is_modern() && is_dropped(class, self.remote_creds.is_some(), emitted)
    }

    /// Emits `DiscoveredRecv` for the source of a packet of this class, if it was not emitted for it since the last ICE restart.
    /// With a limit on discovered candidates, it is emitted only while fewer events wait to be polled.
    fn emit_discovered(&mut self, class: Class, emitted: &Emitted, path: &Path)
        requires { HasDiscoveryRoom 1 self.old }
        ensures { record_of self.new ≡ discovered_emitted class emitted.now path.now (record_of self.old) }
    {
        if is_discovered(&self.discovered_sources, path)
            || self.is_crowded()
            || self.reports_none(class, emitted)
        {
            return;
        }
        self.discovered_sources.push_reserved(Source {
            proto: path.proto,
            address: path.source,
        });
        keep_newest(&mut self.discovered_sources, self.max_discovered);
        self.events
            .push_back_reserved(IceAgentEvent::DiscoveredRecv {
                proto: path.proto,
                source: path.source,
            });
        self.stats.discovered_recv_count = self.stats.discovered_recv_count.saturating_add(1);
    }

    /// Handles a packet that was received at time `now`, and returns whether it was accepted (`accepts_packet`). A packet
    /// that is not accepted changes nothing and allocates nothing. An accepted request gets a response, or is dropped, or is
    /// queued until the remote credentials are known. An accepted response is recorded at its pair. Poll the packets and
    /// events that result.
    ///
    /// Fails with `PairIdsExhausted` if a pair must be added and no number is left, and with `OutOfMemory`. The agent is then
    /// unchanged.
    pub fn handle_packet(&mut self, now: Instant, packet: StunPacket<'_>) -> Result<bool, IceError>
        ensures { HandlesPacket H.mac now.0 (record_of self.old) (packet_path packet.entry) (message_view packet.entry.message) result
            (emitted_of self.new) (record_of self.new) }
    {
        match self.take_packet(now, &packet) {
            Ok(Some(emitted)) => {
                self.emit_discovered(packet.message.class(), &emitted, &packet_path(&packet));
                self.emitted = emitted;
                Ok(true)
            }
            Ok(None) => {
                self.emitted = Emitted::nothing();
                Ok(false)
            }
            Err(error) => {
                self.emitted = Emitted::nothing();
                Err(error)
            }
        }
    }

    /// What a packet makes the agent emit; None if it is not accepted.
    fn take_packet(
        &mut self,
        now: Instant,
        packet: &StunPacket<'_>,
    ) -> Result<Option<Emitted>, IceError>
        ensures arrives { Arrives (IsAcceptedOn H.mac (record_of self.old) (packet_path packet.now) (message_view packet.now.message)) H.mac
            (message_view packet.now.message).class now.0 (record_of self.old) (packet_path packet.now) (message_view packet.now.message) result
            (record_of self.new) }
        ensures room { IfOk result (λ taken. IfSome taken (λ _. HasDiscoveryRoom 1 self.new)) }
    {
        if packet.message.method() != Method::Binding {
            return Ok(None);
        }
        match packet.message.class() {
            Class::Request => self.take_request_packet(now, packet),
            Class::Success => self.handle_success_packet(now, packet),
            Class::Failure => self.handle_failure_packet(packet),
            _ => Ok(None),
        }
    }

    /// A request that is accepted is served, or queued until the remote credentials are known.
    fn take_request_packet(
        &mut self,
        now: Instant,
        packet: &StunPacket<'_>,
    ) -> Result<Option<Emitted>, IceError>
        ensures arrives { Arrives (IsAcceptedAs H.mac classes.Request (keeps_check_on (record_of self.old) (packet_path packet.now)
            (message_view packet.now.message).id) (record_of self.old) (message_view packet.now.message)) H.mac classes.Request now.0
            (record_of self.old) (packet_path packet.now) (message_view packet.now.message) result (record_of self.new) }
        ensures room { IfOk result (λ taken. IfSome taken (λ _. HasDiscoveryRoom 1 self.new)) }
    {
        if !self.accepts_request(&packet.message) {
            return Ok(None);
        }
        let request = Request::new(now, packet);
        let taken = match self.remote_creds {
            None => self.queue_request(&request),
            Some(_) => self.serve(&request),
        };
        Ok(Some(taken?))
    }

    fn handle_success_packet(
        &mut self,
        now: Instant,
        packet: &StunPacket<'_>,
    ) -> Result<Option<Emitted>, IceError>
        ensures arrives { Arrives (IsAcceptedAs H.mac classes.Success (keeps_check_on (record_of self.old) (packet_path packet.now)
            (message_view packet.now.message).id) (record_of self.old) (message_view packet.now.message)) H.mac classes.Success now.0
            (record_of self.old) (packet_path packet.now) (message_view packet.now.message) result (record_of self.new) }
        ensures room { IfOk result (λ taken. IfSome taken (λ _. HasDiscoveryRoom 1 self.new)) }
    {
        let path = packet_path(packet);
        let Some(number) = self.awaited_pair(&path, &packet.message) else {
            return Ok(None);
        };
        let emitted = self.handle_success(number, now, &path, &packet.message)?;
        Ok(Some(emitted))
    }

    fn handle_failure_packet(
        &mut self,
        packet: &StunPacket<'_>,
    ) -> Result<Option<Emitted>, IceError>
        ensures arrives { (now : ℕ) → Arrives (IsAcceptedAs H.mac classes.Failure (keeps_check_on (record_of self.old) (packet_path packet.now)
            (message_view packet.now.message).id) (record_of self.old) (message_view packet.now.message)) H.mac classes.Failure now
            (record_of self.old) (packet_path packet.now) (message_view packet.now.message) result (record_of self.new) }
        ensures room { IfOk result (λ taken. IfSome taken (λ _. HasDiscoveryRoom 1 self.new)) }
    {
        let path = packet_path(packet);
        let Some(number) = self.awaited_pair(&path, &packet.message) else {
            return Ok(None);
        };
        self.reserve_source_room()?;
        self.handle_failure(number, &path, &packet.message);
        Ok(Some(Emitted::nothing()))
    }
}
