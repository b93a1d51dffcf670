//! How a `handle_timeout` call starts: the start event, the state, early requests; the rules: `is_rules::timeout_start`.

ghost use Rattle.std.specs.Prelude.{◌≡◌, ℕ, ◌<◌, false, Some, IfOk, IfErr, IfSome, IsSome, IsSomeAnd, slice_get};
ghost use Rattle.std.specs.VecDeque.{deque_len};
ghost use Rattle.is_rules.specs.RequestView.{request_view, waiting_view};
ghost use Rattle.is_agent.specs.Ready.{IsPlan};
ghost use Rattle.is_agent.specs.Room.{HasEventRoom, HasServingRoom, HasCheckRoomAt, UsesDiscoveryRoom};
ghost use Rattle.is_rules.specs.Serving.{is_for_other_peer, Serves, MayFailAtRequest};
ghost use Rattle.is_agent.specs.View.{record_of};
ghost use Rattle.is_rules.specs.Queue.{first_taken};
ghost use Rattle.is_rules.specs.States.{same_state};
ghost use Rattle.is_rules.specs.TimeoutStart.{start_event, outdated};
ghost use Rattle.is_rules.specs.declared.event.IceConnectionState.TheVariants.{New};
ghost use Rattle.is_rules.specs.Timeouts.{at_request, timeout_begun};

use crate::agent::Agent;
use is_candidate::LocalPreference;
use is_proto::{IceError, Instant, Sha1HmacProvider};
use is_rules::emitted::Emitted;
use is_rules::event::{IceAgentEvent, IceConnectionState};
use is_rules::queue::drop_first;
use is_rules::request::{Request, Waiting};
use is_rules::serving::{Places, Supplies};
use is_rules::states::same_state;
use is_rules::timeout_start::emit_start;
use std::alloc::AllocError;

impl<H: Sha1HmacProvider + Drop, P: LocalPreference> Agent<H, P> {
    /// The start event, in New.
    fn start_event(&self) -> Result<Option<IceAgentEvent>, AllocError>
        ensures { IfOk result (λ event. event ≡ start_event (record_of self.now).state (record_of self.now).local_creds) }
    {
        if !same_state(self.state, IceConnectionState::New) {
            return Ok(None);
        }
        Ok(Some(IceAgentEvent::IceRestart(self.local_creds.clone()?)))
    }

    /// Emits the start event, if there is one, evaluates the state unless it is after nomination, and removes this many outdated requests, within the
    /// reserved capacity for two events.
    pub(crate) fn begin_timeout(
        &mut self,
        now: Instant,
        start: Option<IceAgentEvent>,
        expired: usize,
    )
        requires start { start ≡ start_event (record_of self.old).state (record_of self.old).local_creds }
        requires expired { expired ≡ outdated now.0 self.old.timing self.old.remote_creds (record_of self.old) }
        requires room { HasEventRoom 2 self.old }
        ensures begun { record_of self.new ≡ timeout_begun now.0 (record_of self.old) }
        ensures serving { HasServingRoom self.old → HasServingRoom self.new }
        ensures discovery { UsesDiscoveryRoom 2 self.old self.new }
        ensures checks { (t : ℕ) → HasCheckRoomAt t self.old → HasCheckRoomAt t self.new }
    {
        emit_start(&mut self.events, start);
        self.start_state(now);
        drop_first(&mut self.queue, expired);
    }

    /// Evaluates the state and removes this many outdated requests, in a call after the first one: there is no start event.
    pub(crate) fn begin_later_timeout(&mut self, now: Instant, expired: usize)
        requires later { same_state (record_of self.old).state New ≡ false }
        requires expired { expired ≡ outdated now.0 self.old.timing self.old.remote_creds (record_of self.old) }
        requires room { HasEventRoom 1 self.old }
        ensures begun { record_of self.new ≡ timeout_begun now.0 (record_of self.old) }
        ensures discovery { UsesDiscoveryRoom 1 self.old self.new }
        ensures checks { (t : ℕ) → HasCheckRoomAt t self.old → HasCheckRoomAt t self.new }
    {
        self.start_state(now);
        if expired > 0 {
            drop_first(&mut self.queue, expired);
        }
    }

    /// The request names another peer than the known one. Only an early request can: of others the peer's username fragment is
    /// checked when they are received.
    fn is_for_other_peer(&self, request: &Request<'_>) -> bool
        ensures { result ≡ is_for_other_peer (record_of self.now) (request_view request.now) }
    {
        match &self.remote_creds {
            Some(peer) => request.ufrag != peer.ufrag.as_str(),
            None => true,
        }
    }

    /// The places at which this early request is served, and what that needs; None if it is dropped.
    pub(crate) fn plan_early(&self, place: usize) -> Result<Option<(Places, Supplies)>, IceError>
        requires { place < deque_len self.now.queue }
        ensures planned { IsSomeAnd (slice_get (record_of self.now).queue place) (λ q. IfOk result (IsPlan (record_of self.now) q)) }
        ensures rejected { IsSomeAnd (slice_get (record_of self.now).queue place) (λ q. IfErr result (MayFailAtRequest (record_of self.now) q)) }
    {
        let request = self.queue[place].request();
        if self.is_for_other_peer(&request) {
            return Ok(None);
        }
        self.plan(&request)
    }

    /// With `Modern`, a call that serves an early request counts as the last one, if there was none before.
    fn note_request(&mut self, now: Instant)
        ensures noted { record_of self.new ≡ at_request now.0 (record_of self.old) }
        ensures serving { HasServingRoom self.old → HasServingRoom self.new }
        ensures discovery { UsesDiscoveryRoom 0 self.old self.new }
    {
        if self.timing.is_modern() {
            self.last_time = Some(self.last_time.unwrap_or(now));
        }
    }

    /// Starts the call, within the reserved capacity for two events, and takes the first request that is left.
    fn begin_with_request(
        &mut self,
        now: Instant,
        start: Option<IceAgentEvent>,
        expired: usize,
    ) -> Waiting
        requires start { start ≡ start_event (record_of self.old).state (record_of self.old).local_creds }
        requires expired { expired ≡ outdated now.0 self.old.timing self.old.remote_creds (record_of self.old) }
        requires left { IsSome (slice_get (record_of self.old).queue expired) }
        requires room { HasEventRoom 2 self.old }
        ensures begun { record_of self.new ≡ first_taken (at_request now.0 (timeout_begun now.0 (record_of self.old))) }
        ensures first { Some (waiting_view result) ≡ slice_get (record_of self.old).queue expired }
        ensures serving { HasServingRoom self.old → HasServingRoom self.new }
        ensures discovery { UsesDiscoveryRoom 2 self.old self.new }
    {
        self.begin_timeout(now, start, expired);
        self.note_request(now);
        match self.queue.pop_front() {
            Some(waiting) => waiting,
            None => unreachable!(),
        }
    }

    /// Starts the call, and serves the first early request that is left, as planned.
    pub(crate) fn serve_early_request(
        &mut self,
        now: Instant,
        expired: usize,
        plan: Option<(Places, Supplies)>,
    ) -> Result<Emitted, AllocError>
        requires expired { expired ≡ outdated now.0 self.old.timing self.old.remote_creds (record_of self.old) }
        requires planned { IsSomeAnd (slice_get (record_of self.old).queue expired) (λ q. IsPlan (record_of self.old) q plan) }
        ensures served { IfSome (slice_get (record_of self.old).queue expired) (λ q. IfOk result (λ emitted.
            Serves H.mac q (first_taken (at_request now.0 (timeout_begun now.0 (record_of self.old)))) emitted (record_of self.new))) }
        ensures unchanged { IfErr result (λ _. record_of self.new ≡ record_of self.old) }
    {
        let start = self.start_event()?;
        let Some((at, supplies)) = plan else {
            self.reserve_event_room(2)?;
            let _ = self.begin_with_request(now, start, expired);
            return Ok(Emitted::nothing());
        };
        self.reserve_serving_room(4)?;
        let waiting = self.begin_with_request(now, start, expired);
        Ok(self.serve_at(&waiting.request(), at, supplies))
    }
}
