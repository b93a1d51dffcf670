//! Adding remote candidates and forming their pairs (RFC 8445, section 5.4); the rules: `is_rules::remote`.

ghost use Rattle.std.specs.Prelude.{◌≡◌, ◌<◌, IfSome, IsOkUnless, OnOk, position, length};
ghost use Rattle.std.specs.List.{list_any};
ghost use Rattle.is_agent.specs.View.{record_of, emitted_of};
ghost use Rattle.is_agent.specs.Room.{HasFormingRoom, HasPairRoom, HasSelectionRoom, UsesEvents};
ghost use Rattle.is_rules.specs.StateUpdates.{ReselectsAfter};
ghost use Rattle.is_rules.specs.Forming.{AreIn, HasNumbers, FormsAll, remote_combinations};
ghost use Rattle.is_rules.specs.Remote.{has_other_ufrag, has_equivalent, is_placeholder, as_remote, place_or_end, is_ignored, StoresAt};
ghost use Rattle.is_rules.specs.Remote.{JoinsRemote, AddsRemote};

use crate::agent::{Agent, sides};
use crate::room::reserve_candidate;
use is_candidate::candidate::internals::component;
use is_candidate::{Candidate, LocalPreference};
use is_proto::{IceError, Sha1HmacProvider};
use is_rules::emitted::Emitted;
use is_rules::forming::{form_each, has_numbers_for, remote_combinations};
use is_rules::limit::is_full;
use is_rules::remote::{Equivalent, as_remote, place_of_placeholder, place_or_end, store};
use is_rules::sides::Sides;

impl<H: Sha1HmacProvider + Drop, P: LocalPreference> Agent<H, P> {
    pub(crate) fn has_other_ufrag(&self, candidate: &Candidate) -> bool
        ensures { result ≡ has_other_ufrag (record_of self.now).remote_creds candidate.now.ufrag }
    {
        match (&self.remote_creds, candidate.ufrag()) {
            (Some(peer), Some(ufrag)) => ufrag != peer.ufrag.as_str(),
            _ => false,
        }
    }

    /// A pair has a remote candidate that equals this one.
    fn is_paired(&self, candidate: &Candidate) -> bool
        ensures { result ≡ list_any (has_equivalent (record_of self.now).remote candidate.now) (record_of self.now).pairs }
    {
        let remote = &self.remote;
        self.pairs.any(&Equivalent { remote, candidate })
    }

    pub(crate) fn is_ignored(&self, candidate: &Candidate) -> bool
        ensures { result ≡ is_ignored (record_of self.now) candidate.now }
    {
        is_full(self.max_candidates, &self.remote)
            || component(candidate) != 1
            || self.has_other_ufrag(candidate)
            || self.is_paired(candidate)
    }

    /// The combinations become pairs, within the reserved capacity, and then the limit is applied.
    pub(crate) fn form(&mut self, all: &[(usize, usize)])
        requires within { AreIn (length self.old.local.items) (length self.old.remote.items) all.now }
        requires room { HasPairRoom (length all.now) self.old }
        requires numbers { HasNumbers self.old.next_number (length all.now) }
        ensures formed { FormsAll (record_of self.old) all.now (record_of self.new) }
        ensures events { UsesEvents 0 self.old self.new }
    {
        form_each(
            *self.packets.allocator(),
            sides!(self),
            self.max_pairs,
            all,
            &mut self.pairs,
            &mut self.next_number,
        );
    }

    /// Adds a candidate of the peer, and forms pairs with it (RFC 8445, section 6.1.2). It replaces a candidate that a
    /// request from its address added. A candidate is ignored if its component is not 1, if its username fragment is not the
    /// peer's, if it equals the remote candidate of a pair, or if as many are listed as `set_max_candidates` allows.
    ///
    /// Fails with `PairIdsExhausted` if no number is left for a pair, and with `OutOfMemory`. The agent is then unchanged.
    pub fn add_remote_candidate(&mut self, candidate: Candidate) -> Result<(), IceError>
        ensures { ReselectsAfter (AddsRemote (record_of self.old) candidate result) (record_of self.old) (emitted_of self.new) (record_of self.new) }
    {
        if self.is_ignored(&candidate) {
            self.emitted = Emitted::nothing();
            return Ok(());
        }
        let place = self.place_for(&candidate);
        self.join_remote(candidate, place)
    }

    /// The index of the candidate that this one replaces.
    pub(crate) fn place_for(&self, candidate: &Candidate) -> Option<usize>
        ensures place { result ≡ position (is_placeholder candidate.now) (record_of self.now).remote }
        ensures within { IfSome result (λ place. place < length self.now.remote.items) }
    {
        place_of_placeholder(&self.remote, candidate)
    }

    /// Reserves capacity for one more candidate and this many pairs.
    fn reserve_forming_room(&mut self, pairs: usize) -> Result<(), IceError>
        ensures record { record_of self.new ≡ record_of self.old }
        ensures room { OnOk result (HasFormingRoom pairs self.new) }
        ensures selection { OnOk result (HasSelectionRoom (record_of self.old) self.new) }
        ensures rejected { IsOkUnless result IceError.OutOfMemory }
    {
        self.keep_room(pairs)?;
        self.reserve_selection_room()?;
        self.pairs.reserve(pairs)?;
        reserve_candidate(&mut self.remote)?;
        Ok(())
    }

    /// Stores the candidate at the index, or appends it, and forms pairs with it, without regard to the selected pair.
    fn store_remote(&mut self, candidate: Candidate, place: Option<usize>) -> Result<(), IceError>
        requires place { place ≡ position (is_placeholder candidate) (record_of self.old).remote }
        requires within { IfSome place (λ place. place < length self.old.remote.items) }
        ensures joined { JoinsRemote (record_of self.old) (as_remote candidate) result (record_of self.new) }
        ensures selection { OnOk result (HasSelectionRoom (record_of self.old) self.new) }
    {
        let candidate = as_remote(candidate);
        if !has_numbers_for(self.next_number, &candidate, &self.local) {
            return Err(IceError::PairIdsExhausted);
        }
        let end = place_or_end(place, &self.remote);
        let alloc = *self.remote.allocator();
        let all = remote_combinations(alloc, &candidate, end, &self.local)?;
        self.reserve_forming_room(all.len())?;
        self.store_at(candidate, place, &all);
        Ok(())
    }

    /// Stores the candidate at the index, or appends it, and forms pairs with it.
    pub(crate) fn join_remote(
        &mut self,
        candidate: Candidate,
        place: Option<usize>,
    ) -> Result<(), IceError>
        requires place { place ≡ position (is_placeholder candidate) (record_of self.old).remote }
        requires within { IfSome place (λ place. place < length self.old.remote.items) }
        ensures { ReselectsAfter (JoinsRemote (record_of self.old) (as_remote candidate) result) (record_of self.old) (emitted_of self.new)
            (record_of self.new) }
    {
        let kept = self.keeps_selected();
        match self.store_remote(candidate, place) {
            Ok(()) => {
                self.reselect(kept);
                Ok(())
            }
            Err(error) => {
                self.emitted = Emitted::nothing();
                Err(error)
            }
        }
    }

    /// Stores the candidate at this index, and forms these combinations.
    fn store_at(&mut self, candidate: Candidate, place: Option<usize>, all: &[(usize, usize)])
        requires room { HasFormingRoom (length all.now) self.old }
        requires within { IfSome place (λ place. place < length self.old.remote.items) }
        requires numbers { HasNumbers self.old.next_number (length all.now) }
        requires all { all.now ≡ remote_combinations candidate (place_or_end place self.old.remote.items) self.old.local.items }
        ensures stored { StoresAt (record_of self.old) candidate place (record_of self.new) }
        ensures events { UsesEvents 0 self.old self.new }
    {
        store(&mut self.remote, place, candidate);
        self.form(all);
    }
}
