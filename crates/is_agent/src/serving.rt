//! Serving a Binding request (RFC 8445, section 7.3); the rules: `is_rules::serving`.
//!
//! Choices are made and capacity is reserved before anything changes; what follows can't fail. `serve_at` lists its steps, in their
//! order. Each is a function here or in the file that is named after it.

ghost use Rattle.std.specs.Prelude.{◌≡◌, ◌<◌, Some, None, true, false, length, slice_set, IfOk, IfErr, IfSome, OnOk, IsOkUnless};
ghost use Rattle.is_candidate.specs.Candidates.{candidate_at};
ghost use Rattle.is_proto.specs.Times.{MAX};
ghost use Rattle.is_proto.specs.declared.error.IceError.TheVariants as errors;
ghost use Rattle.is_agent.specs.View.{record_of};
ghost use Rattle.is_rules.specs.RequestView.{request_view};
ghost use Rattle.is_agent.specs.Room.{HasServingRoom, HasPairRoom, HasPacketRoom, HasDiscoveryRoom, UsesDiscoveryRoom};
ghost use Rattle.is_rules.specs.Forming.{formed, with_pair};
ghost use Rattle.is_stun.specs.Theorems.{LONGEST_REPLY};
ghost use Rattle.is_stun.specs.Timing.{is_modern};
ghost use Rattle.is_agent.specs.Ready.{IsPlan, IsReady, IsWithin};
ghost use Rattle.is_rules.specs.Serving.{is_for_other_peer, needs_pair, lacks_number, Chooses, MayFailAtRequest, Serves, ServesAt};
ghost use Rattle.is_rules.specs.Serving.{evaluates_at, nominated_last, pair_added, pair_number, pair_served, request_counted};
ghost use Rattle.is_rules.specs.Serving.{sees_number, sender_added, sender_at, sender_index, triggered_time, Replies, SendsRoleConflict};

use crate::agent::{Agent, sides};
use crate::emitted::packet_on;
use crate::room::{reserve_candidate, reserve_events};
use is_candidate::candidate::equality::TEMPORARY_FOUNDATION;
use is_candidate::candidate::making::peer_reflexive;
use is_candidate::{Candidate, LocalPreference};
use is_pair::pair::CandidatePair;
use is_proto::{IceError, Sha1HmacProvider, reserve_one, reserve_one_in};
use is_rules::emitted::{Emitted, Issued, Path};
use is_rules::forming::pair_of;
use is_rules::limit::sender_place;
use is_rules::pairs::{ServingRole, TriggeredCheck, is_valid_at, pair_between, serve_pair};
use is_rules::places::{RemotePlace, is_discarded_at, local_place, remote_index};
use is_rules::reply::{REPLY_LEN, write_conflict, write_reply};
use is_rules::request::Request;
use is_rules::roles::Conflict;
use is_rules::serving::{Places, Supplies, is_admitted, is_misled, needs_pair_at};
use is_rules::sides::Sides;
use is_stun::stun::Class;
use std::alloc::AllocError;

/// Puts a candidate in the place of another one.
fn put(list: &mut Vec<Candidate>, place: usize, candidate: Candidate)
    requires { place < length list.old.items }
    ensures { list.new.items ≡ slice_set list.old.items place candidate }
{
    list[place] = candidate;
}

// ---- the choices

impl<H: Sha1HmacProvider + Drop, P: LocalPreference> Agent<H, P> {
    /// The candidates and the pair at which the request can be served, if a local candidate received it.
    pub(crate) fn places_of(&self, request: &Request<'_>) -> Option<Places>
        requires { is_for_other_peer (record_of self.now) (request_view request.now) ≡ false }
        ensures chosen { Chooses (record_of self.now) (request_view request.now) result }
        ensures within { IfSome result (λ at. (at.local < length self.now.local.items) × IsWithin (length self.now.remote.items) at.remote) }
    {
        let local = local_place(&self.local, request)?;
        let remote = sender_place(self.max_discovered, &self.remote, &self.pairs, request);
        let pair = pair_between(&self.pairs, local, remote_index(&self.remote, remote));
        Some(Places {
            local,
            remote,
            pair,
        })
    }

    /// A pair must be added to serve the request at these places, given the role conflict and the role after it.
    fn needs_pair(&self, request: &Request<'_>, at: Places) -> bool
        requires { at.local < length self.now.local.items }
        ensures { result ≡ needs_pair (record_of self.now) (request_view request.now) at }
    {
        is_admitted(self.conflict(request), self.controlling, request)
            && needs_pair_at(at.remote, at.pair, is_discarded_at(&self.local, at.local))
    }

    /// A pair must be added to serve the request at these places, and no number is left.
    fn lacks_number(&self, request: &Request<'_>, at: Places) -> bool
        requires { at.local < length self.now.local.items }
        ensures lacks { result ≡ lacks_number (record_of self.now) (request_view request.now) at }
        ensures left { result ≡ false → needs_pair (record_of self.now) (request_view request.now) at ≡ true
            → self.now.next_number < MAX }
    {
        self.next_number == u64::MAX && self.needs_pair(request, at)
    }
}

// ---- capacity

impl<H: Sha1HmacProvider + Drop, P: LocalPreference> Agent<H, P> {
    /// Reserves capacity for one more source and its event.
    pub(crate) fn reserve_source_room(&mut self) -> Result<(), IceError>
        ensures record { record_of self.new ≡ record_of self.old }
        ensures room { OnOk result (HasDiscoveryRoom 1 self.new) }
        ensures rejected { IsOkUnless result errors.OutOfMemory }
    {
        reserve_one(&mut self.discovered_sources)?;
        reserve_events(&mut self.events, self.kept_room, 1)?;
        Ok(())
    }

    /// Reserves capacity for all that serving a request can add, and for this many events.
    pub(crate) fn reserve_serving_room(&mut self, events: usize) -> Result<(), AllocError>
        ensures record { record_of self.new ≡ record_of self.old }
        ensures room { OnOk result (HasServingRoom self.new × HasDiscoveryRoom events self.new) }
    {
        self.keep_room(1)?;
        reserve_candidate(&mut self.remote)?;
        self.pairs.reserve(1)?;
        reserve_one_in(&mut self.packets)?;
        reserve_one(&mut self.discovered_sources)?;
        reserve_events(&mut self.events, self.kept_room, events)?;
        Ok(())
    }

    /// The peer-reflexive candidate that an unknown sender becomes (RFC 8445, section 7.3.1.3).
    fn sender_at(
        &self,
        request: &Request<'_>,
        place: RemotePlace,
    ) -> Result<Option<Candidate>, AllocError>
        ensures { IfOk result (λ sender. sender ≡ sender_at (record_of self.now) (request_view request.now) place) }
    {
        match place {
            RemotePlace::Known(_) | RemotePlace::Barred | RemotePlace::Full => Ok(None),
            RemotePlace::Unknown | RemotePlace::Vacant(_) => {
                let source = request.path.source;
                Ok(Some(peer_reflexive(
                    *self.remote.allocator(),
                    Some(TEMPORARY_FOUNDATION),
                    request.path.proto,
                    request.priority,
                    source,
                    source,
                    self.local_creds.ufrag.as_str(),
                )?))
            }
        }
    }

    /// Allocates what serving the request needs.
    fn supplies_for(&self, request: &Request<'_>, at: Places) -> Result<Supplies, AllocError>
        ensures reply { IfOk result (λ supplies. length supplies.reply.items ≡ LONGEST_REPLY) }
        ensures sender { IfOk result (λ supplies. supplies.sender ≡ sender_at (record_of self.now) (request_view request.now) at.remote) }
    {
        let sender = self.sender_at(request, at.remote)?;
        let reply = vec![in *self.packets.allocator(); 0; REPLY_LEN]?;
        Ok(Supplies { reply, sender })
    }

    /// The places at which the request is served, and what that needs; None if no local candidate received it. Numbers are checked before
    /// memory.
    pub(crate) fn plan(&self, request: &Request<'_>) -> Result<Option<(Places, Supplies)>, IceError>
        requires { is_for_other_peer (record_of self.now) (request_view request.now) ≡ false }
        ensures planned { IfOk result (IsPlan (record_of self.now) (request_view request.now)) }
        ensures rejected { IfErr result (MayFailAtRequest (record_of self.now) (request_view request.now)) }
    {
        let Some(at) = self.places_of(request) else {
            return Ok(None);
        };
        if self.lacks_number(request, at) {
            return Err(IceError::PairIdsExhausted);
        }
        let supplies = self.supplies_for(request, at)?;
        Ok(Some((at, supplies)))
    }
}

// ---- the rules

impl<H: Sha1HmacProvider + Drop, P: LocalPreference> Agent<H, P> {
    /// Sends the success response on the path, signed with the local password (RFC 8445, section 7.3.1.2; RFC 8489, section
    /// 9.1.3), after a path was selected, or none.
    fn reply(
        &mut self,
        request: &Request<'_>,
        path: Path,
        selected_paths: Option<Path>,
        mut reply: Vec<u8>,
    ) -> Emitted
        requires packets { HasPacketRoom self.old }
        requires reply { length reply.items ≡ LONGEST_REPLY }
        ensures replied { Replies H.mac (request_view request.now) path selected_paths (record_of self.old) result (record_of self.new) }
        ensures discovery { UsesDiscoveryRoom 0 self.old self.new }
    {
        let password = self.local_creds.pass.as_str();
        write_reply(
            &mut reply,
            request.id,
            request.path.source,
            password,
            &self.by_local_key(),
        );
        self.packets.push_back_reserved(packet_on(path, reply));
        let issued = Issued::new(path, Class::Success, request.id);
        Emitted::by(Some(issued), selected_paths, None)
    }

    /// Whether a request at the pair causes nomination to be evaluated (RFC 8445, section 7.3.1.5).
    fn evaluates_at(&self, number: u64) -> bool
        ensures { result ≡ evaluates_at number (record_of self.now) }
    {
        (self.timing.is_modern() || self.controlling) && is_valid_at(&self.pairs, number)
    }

    /// The number of the pair that the peer nominated last, after the request at the pair with this number.
    fn nominated_last(&self, request: &Request<'_>, number: u64) -> Option<u64>
        ensures { result ≡ nominated_last self.now.controlling (request_view request.now) number self.now.last_nominated }
    {
        if !self.controlling && request.use_candidate {
            Some(number)
        } else {
            self.last_nominated
        }
    }

    /// Whether a nomination with a number was served, after this request.
    fn sees_number(&self, request: &Request<'_>) -> bool
        ensures { result ≡ sees_number self.now.controlling (request_view request.now).nomination self.now.numbers_seen }
    {
        match request.nomination {
            Some(number) if !self.controlling && number != 0 => true,
            _ => self.numbers_seen,
        }
    }

    /// Whether, and when, the request triggers a check: at once, and not before the last `handle_timeout` call.
    fn triggered_check(&self, request: &Request<'_>) -> TriggeredCheck
        ensures modern { result.modern ≡ is_modern (record_of self.now).timing }
        ensures at { result.at.0 ≡ triggered_time (request_view request.now) (record_of self.now) }
    {
        let at = match self.last_time {
            Some(last) => request.time.max(last),
            None => request.time,
        };
        TriggeredCheck {
            modern: self.timing.is_modern(),
            at,
        }
    }

    /// The pair records the request, which may trigger this check of it.
    fn serve_pair(&mut self, request: &Request<'_>, number: u64, check: TriggeredCheck)
        requires modern { check.modern ≡ is_modern (record_of self.old).timing }
        requires at { check.at.0 ≡ triggered_time (request_view request.now) (record_of self.old) }
        requires packets { HasPacketRoom self.old }
        ensures served { record_of self.new ≡ pair_served (request_view request.now) number (record_of self.old) }
        ensures packets { HasPacketRoom self.new }
        ensures discovery { UsesDiscoveryRoom 0 self.old self.new }
    {
        let role = ServingRole {
            controlling: self.controlling,
            lite: self.lite,
        };
        let taken = request.as_taken(self.numbers());
        self.last_nominated = self.nominated_last(&taken, number);
        self.numbers_seen = self.sees_number(&taken);
        serve_pair(&mut self.pairs, number, &taken, role, check);
    }

    /// The pair of the two candidates, with the next number.
    fn formed(&self, l: usize, r: usize) -> CandidatePair
        requires local { l < length self.now.local.items }
        requires remote { r < length self.now.remote.items }
        ensures { result ≡ formed (record_of self.now) l r }
    {
        let alloc = *self.packets.allocator();
        pair_of(alloc, sides!(self), (l, r), self.next_number)
    }

    /// Adds this pair, without limit or redundancy check.
    pub(crate) fn add_pair(&mut self, l: usize, r: usize)
        requires local { l < length self.old.local.items }
        requires remote { r < length self.old.remote.items }
        requires pairs { HasPairRoom 1 self.old }
        requires number { self.old.next_number < MAX }
        ensures added { record_of self.new ≡ with_pair (formed (record_of self.old) l r) (record_of self.old) }
        ensures within { (l < length self.new.local.items) × (r < length self.new.remote.items) }
        ensures packets { HasPacketRoom self.old → HasPacketRoom self.new }
        ensures discovery { UsesDiscoveryRoom 0 self.old self.new }
    {
        let pair = self.formed(l, r);
        self.pairs.add(pair);
        self.next_number += 1;
    }

    /// The number of the pair of both candidates. If there is none, one is added (RFC 8445, section 7.3.1.4), unless the local candidate
    /// is discarded.
    fn find_or_add_pair(&mut self, l: usize, r: usize, pair: Option<u64>) -> Option<u64>
        requires local { l < length self.old.local.items }
        requires remote { r < length self.old.remote.items }
        requires pairs { HasPairRoom 1 self.old }
        requires packets { HasPacketRoom self.old }
        requires number { pair ≡ None → (candidate_at self.old.local.items l).discarded ≡ false → self.old.next_number < MAX }
        ensures number { result ≡ pair_number l pair (record_of self.old) }
        ensures added { record_of self.new ≡ pair_added l r pair (record_of self.old) }
        ensures within { (l < length self.new.local.items) × (r < length self.new.remote.items) }
        ensures packets { HasPacketRoom self.new }
        ensures discovery { UsesDiscoveryRoom 0 self.old self.new }
    {
        if pair.is_some() {
            return pair;
        }
        if is_discarded_at(&self.local, l) {
            return None;
        }
        let number = self.next_number;
        self.add_pair(l, r);
        Some(number)
    }

    /// The index of the sender among the remote candidates. An unknown sender is added as a peer-reflexive candidate (RFC 8445, section
    /// 7.3.1.3); at the limit it replaces one without a pair. None: there is no place for it, or all its candidates are discarded.
    fn add_sender(
        &mut self,
        request: &Request<'_>,
        place: RemotePlace,
        sender: Option<Candidate>,
    ) -> Option<usize>
        requires within { IsWithin (length self.old.remote.items) place }
        requires sender { sender ≡ sender_at (record_of self.old) (request_view request.now) place }
        requires room { HasServingRoom self.old }
        ensures index { result ≡ sender_index (record_of self.old).remote place }
        ensures added { record_of self.new ≡ sender_added (request_view request.now) place (record_of self.old) }
        ensures within { IfSome result (λ r. r < length self.new.remote.items) }
        ensures local { length self.new.local.items ≡ length self.old.local.items }
        ensures pairs { HasPairRoom 1 self.new }
        ensures packets { HasPacketRoom self.new }
        ensures discovery { UsesDiscoveryRoom 0 self.old self.new }
    {
        match (place, sender) {
            (RemotePlace::Known(r), _) => Some(r),
            (RemotePlace::Unknown, Some(sender)) => {
                let r = self.remote.len();
                self.remote.push_reserved(sender);
                Some(r)
            }
            (RemotePlace::Vacant(r), Some(sender)) => {
                put(&mut self.remote, r, sender);
                self.pairs.forget_removed(r);
                Some(r)
            }
            _ => None,
        }
    }

    fn count_request(&mut self)
        ensures counted { record_of self.new ≡ request_counted (record_of self.old) }
        ensures room { HasServingRoom self.old → HasServingRoom self.new }
        ensures discovery { UsesDiscoveryRoom 0 self.old self.new }
    {
        self.stats.bind_request_recv = self.stats.bind_request_recv.saturating_add(1);
    }

    /// Sends the 487 on the reverse path of the request, signed with the local password (RFC 8445, section 7.3.1.1).
    fn send_role_conflict(&mut self, request: &Request<'_>, mut reply: Vec<u8>) -> Emitted
        requires packets { HasPacketRoom self.old }
        requires reply { length reply.items ≡ LONGEST_REPLY }
        ensures conflict_sent { SendsRoleConflict H.mac (request_view request.now) (record_of self.old) result (record_of self.new) }
        ensures discovery { UsesDiscoveryRoom 0 self.old self.new }
    {
        let password = self.local_creds.pass.as_str();
        write_conflict(&mut reply, request.id, password, &self.by_local_key());
        let path = request.path.reversed();
        self.packets.push_back_reserved(packet_on(path, reply));
        Emitted::issued_only(path, Class::Failure, request.id)
    }

    /// Serves a request at these places, as planned: the steps in the order of RFC 8445, section 7.3.1. A request with USE-CANDIDATE is
    /// dropped while controlling, since only the controlling agent nominates (section 8.1.1).
    pub(crate) fn serve_at(
        &mut self,
        request: &Request<'_>,
        at: Places,
        supplies: Supplies,
    ) -> Emitted
        requires { IsReady self.old (request_view request.now) at supplies }
        ensures served { ServesAt H.mac (request_view request.now) at (record_of self.old) result (record_of self.new) }
        ensures discovery { UsesDiscoveryRoom 2 self.old self.new }
    {
        let Supplies { reply, sender } = supplies;
        if self.sends_487(request) {
            return self.send_role_conflict(request, reply);
        }
        self.resolve_role_conflict(request);
        if is_misled(self.controlling, request) {
            return Emitted::nothing();
        }
        self.count_request();
        let Some(r) = self.add_sender(request, at.remote, sender) else {
            return Emitted::nothing();
        };
        let Some(number) = self.find_or_add_pair(at.local, r, at.pair) else {
            return Emitted::nothing();
        };
        let path = self.path_between(at.local, r);
        let check = self.triggered_check(request);
        let evaluates = self.evaluates_at(number);
        self.serve_pair(request, number, check);
        let selected_paths = self.nominate_where(evaluates);
        self.update_state(selected_paths.is_some(), check.at);
        self.reply(request, path, selected_paths, reply)
    }

    /// Serves a request (RFC 8445, section 7.3), or drops it, and returns what was emitted. Numbers are checked before
    /// memory.
    pub(crate) fn serve(&mut self, request: &Request<'_>) -> Result<Emitted, IceError>
        requires { is_for_other_peer (record_of self.old) (request_view request.now) ≡ false }
        ensures served { IfOk result (λ emitted. Serves H.mac (request_view request.now) (record_of self.old) emitted (record_of self.new)) }
        ensures room { OnOk result (HasDiscoveryRoom 1 self.new) }
        ensures rejected { IfErr result (λ error. MayFailAtRequest (record_of self.old) (request_view request.now) error
            × (record_of self.new ≡ record_of self.old)) }
    {
        let Some((at, supplies)) = self.plan(request)? else {
            self.reserve_source_room()?;
            return Ok(Emitted::nothing());
        };
        self.reserve_serving_room(3)?;
        Ok(self.serve_at(request, at, supplies))
    }
}
