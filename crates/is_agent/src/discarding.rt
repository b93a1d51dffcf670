//! Discarding candidates: each keeps its index, and its pairs are removed; the rules: `is_rules::discarding`.

ghost use Rattle.std.specs.Prelude.{◌≡◌, ℕ, ◌<◌, length, IfSome, true, false, vec_len, vec_capacity};
ghost use Rattle.is_candidate.specs.Candidates.{candidate_at};
ghost use Rattle.is_agent.specs.View.{record_of, emitted_of};
ghost use Rattle.is_agent.specs.Room.{HasCandidateRoom, HasRoomToRelease, UsesEvents};
ghost use Rattle.is_pair.specs.Checklists.{HasRoom};
ghost use Rattle.is_rules.specs.Discarding.{discarded, local_to_discard, remote_to_discard, local_discarded, remote_discarded};
ghost use Rattle.is_rules.specs.Discarding.{InvalidatesAt, Invalidates};
ghost use Rattle.is_rules.specs.StateUpdates.{ReselectsAfter};

use crate::agent::Agent;
use is_candidate::{Candidate, LocalPreference};
use is_proto::Sha1HmacProvider;
use is_rules::discarding::{LocalAt, RemoteAt, discard_at, place_to_discard};
use is_rules::emitted::Emitted;

impl<H: Sha1HmacProvider + Drop, P: LocalPreference> Agent<H, P> {
    /// Discards the local candidate at the index.
    pub(crate) fn discard_local(&mut self, place: usize)
        requires { place < length self.old.local.items }
        ensures discarded { record_of self.new ≡ local_discarded place (record_of self.old) }
        ensures local { vec_len self.new.local ≡ vec_len self.old.local }
        ensures local_capacity { vec_capacity self.new.local ≡ vec_capacity self.old.local }
        ensures events { UsesEvents 0 self.old self.new }
        ensures candidate { (n : ℕ) → HasCandidateRoom n self.old → HasCandidateRoom n self.new }
        ensures room { (candidate_at self.old.local.items place).discarded ≡ false
            → length (record_of self.new).pairs < length (record_of self.old).pairs → HasRoomToRelease self.new }
        ensures pairs { (n : ℕ) → HasRoom n self.old.pairs → HasRoom n self.new.pairs }
    {
        discard_at(&mut self.local, place);
        self.pairs.remove_where(&LocalAt { place });
    }

    fn discard_remote(&mut self, place: usize)
        requires { place < length self.old.remote.items }
        ensures discarded { record_of self.new ≡ remote_discarded place (record_of self.old) }
        ensures room { (candidate_at self.old.remote.items place).discarded ≡ false
            → length (record_of self.new).pairs < length (record_of self.old).pairs → HasRoomToRelease self.new }
    {
        discard_at(&mut self.remote, place);
        self.pairs.remove_where(&RemoteAt { place });
    }

    fn local_to_discard(&self, candidate: &Candidate) -> Option<usize>
        ensures place { result ≡ local_to_discard candidate.now (record_of self.now) }
        ensures within { IfSome result (λ place. place < length self.now.local.items) }
        ensures live { IfSome result (λ place. (candidate_at self.now.local.items place).discarded ≡ false) }
    {
        place_to_discard(self.timing.is_modern(), &self.local, candidate)
    }

    fn remote_to_discard(&self, candidate: &Candidate) -> Option<usize>
        ensures place { result ≡ remote_to_discard candidate.now (record_of self.now) }
        ensures within { IfSome result (λ place. place < length self.now.remote.items) }
        ensures live { IfSome result (λ place. (candidate_at self.now.remote.items place).discarded ≡ false) }
    {
        place_to_discard(self.timing.is_modern(), &self.remote, candidate)
    }

    fn discard(&mut self, candidate: &Candidate) -> bool
        ensures discarded { InvalidatesAt (local_to_discard candidate.now (record_of self.old)) (remote_to_discard candidate.now (record_of self.old))
            (record_of self.old) result (record_of self.new) }
        ensures room { result ≡ true → length (record_of self.new).pairs < length (record_of self.old).pairs → HasRoomToRelease self.new }
    {
        match (
            self.local_to_discard(candidate),
            self.remote_to_discard(candidate),
        ) {
            (Some(place), _) => {
                self.discard_local(place);
                true
            }
            (None, Some(place)) => {
                self.discard_remote(place);
                true
            }
            (None, None) => false,
        }
    }

    /// Discards a candidate that is no longer usable, for example because its interface was removed. It discards the first
    /// local candidate that equals this one in address, base, protocol, kind and related address, if that one is not
    /// discarded; else the first such remote candidate, likewise. With the profile `Modern` those that are discarded are
    /// passed over. The pairs of the discarded candidate are removed. Returns whether there was one. With `Modern` another path is
    /// selected at once if the selected one is lost. Does not allocate.
    pub fn invalidate_candidate(&mut self, candidate: &Candidate) -> bool
        ensures { ReselectsAfter (Invalidates (record_of self.old) candidate.now result) (record_of self.old) (emitted_of self.new)
            (record_of self.new) }
    {
        let kept = self.keeps_selected();
        let found = self.discard(candidate);
        if !found {
            self.emitted = Emitted::nothing();
            return false;
        }
        if !self.is_lost(kept) {
            self.emitted = Emitted::nothing();
            return true;
        }
        self.release_room();
        self.select_again();
        true
    }
}
