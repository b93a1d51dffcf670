//! Room for candidates and events. `invalidate_candidate` takes no memory: from the call that adds a candidate on, room is kept for the two
//! events that are emitted if it is invalidated.

ghost use Rattle.std.specs.Prelude.{◌≡◌, ◌+◌, ◌*◌, ◌<◌, ◌≤◌, OnOk, length, vec_len, vec_capacity};
ghost use Rattle.std.specs.VecDeque.{deque_len, deque_capacity};
ghost use Rattle.is_proto.specs.Times.{MAX};
ghost use Rattle.is_pair.specs.Checklists.{multiset_of};
ghost use Rattle.is_agent.specs.Live.{live_count, room_for};
ghost use Rattle.is_agent.specs.Room.{HasEventRoom, HasCandidateRoom, HasRoomToRelease};
ghost use Rattle.is_agent.specs.View.{record_of};

use crate::agent::Agent;
use is_candidate::{Candidate, LocalPreference};
use is_proto::Sha1HmacProvider;
use is_rules::event::IceAgentEvent;
use std::alloc::AllocError;
use std::collections::VecDeque;

/// A list with fewer candidates is short: it gets one place for each, since most agents have few. A longer one grows as `reserve` lets it, so
/// that it is not moved for each candidate.
const SHORT: usize = 32;

/// As many events as a `handle_timeout` call has capacity reserved for.
const OF_TIMEOUT: usize = 5;

/// Reserves capacity for one more candidate.
pub(crate) fn reserve_candidate(list: &mut Vec<Candidate>) -> Result<(), AllocError>
    ensures items { list.new.items ≡ list.old.items }
    ensures len { vec_len list.new ≡ vec_len list.old }
    ensures ok { OnOk result (vec_len list.new < vec_capacity list.new) }
    ensures capacity { vec_capacity list.old ≤ vec_capacity list.new }
{
    if list.len() < SHORT {
        return list.reserve_exact(1);
    }
    list.reserve(1)
}

/// Reserves capacity for so many events more, beyond the room that is kept.
pub(crate) fn reserve_events(
    events: &mut VecDeque<IceAgentEvent>,
    kept: usize,
    more: usize,
) -> Result<(), AllocError>
    ensures items { events.new.items ≡ events.old.items }
    ensures len { deque_len events.new ≡ deque_len events.old }
    ensures capacity { deque_capacity events.old ≤ deque_capacity events.new }
    ensures ok { OnOk result (deque_len events.new + kept + more ≤ deque_capacity events.new) }
{
    match kept.checked_add(more) {
        Some(needed) => events.reserve(needed),
        None => Err(AllocError),
    }
}

impl<H: Sha1HmacProvider + Drop, P: LocalPreference> Agent<H, P> {
    /// How often a path can be lost, once there are this many candidates and pairs more: each time one of either is gone.
    fn losses(&self, candidates: usize, pairs: usize) -> usize
        ensures { result < MAX → room_for (live_count self.now.local.items + live_count self.now.remote.items + candidates)
            (length (multiset_of self.now.pairs) + pairs) ≤ 2 * result }
    {
        let listed = self.local.len().saturating_add(self.remote.len());
        listed
            .saturating_add(candidates)
            .min(self.pairs.len().saturating_add(pairs))
    }

    /// Keeps room for invalidating one more candidate than there are, once there are this many pairs more. A call that adds none leaves it
    /// for the next one. Discarded candidates are counted too, so that none are looked at for each packet.
    pub(crate) fn keep_room(&mut self, pairs: usize) -> Result<(), AllocError>
        ensures record { record_of self.new ≡ record_of self.old }
        ensures room { OnOk result (HasCandidateRoom pairs self.new) }
    {
        let losses = self.losses(1, pairs);
        if self.kept_room / 2 < losses {
            reserve_events(&mut self.events, losses, losses)?;
            self.kept_room = 2 * losses;
        }
        Ok(())
    }

    /// Gives back the room for pairs that are gone.
    fn lower_room(&mut self)
        ensures { record_of self.new ≡ record_of self.old }
    {
        let losses = self.losses(0, 0);
        if losses < self.kept_room / 2 {
            self.kept_room = 2 * losses;
        }
    }

    /// Gives back the capacity for events that is not used, if that is more than a fourth of it.
    fn shrink_events(&mut self)
        ensures { record_of self.new ≡ record_of self.old }
    {
        let used = self
            .events
            .len()
            .saturating_add(self.kept_room)
            .saturating_add(OF_TIMEOUT);
        if used < self.events.capacity() - self.events.capacity() / 4 {
            self.events.shrink_to(used);
        }
    }

    /// Gives back the room for pairs that are gone, and the capacity for it.
    pub(crate) fn give_back_room(&mut self)
        ensures { record_of self.new ≡ record_of self.old }
    {
        self.lower_room();
        self.shrink_events();
    }

    /// Gives room of a candidate that was discarded to the events that this emits.
    pub(crate) fn release_room(&mut self)
        requires { HasRoomToRelease self.old }
        ensures record { record_of self.new ≡ record_of self.old }
        ensures room { HasEventRoom 2 self.new }
    {
        self.kept_room -= 2;
    }
}
