//! The pairs that were removed last, and why: queries that change nothing.

ghost use Rattle.std.specs.Prelude.{◌≡◌, length, slice_get};
ghost use Rattle.is_agent.specs.Removed.{removed_of, path_between_some};
ghost use Rattle.is_agent.specs.View.{record_of};

use crate::agent::Agent;
use is_candidate::LocalPreference;
pub use is_pair::checklist::{Removal, RemovedPair};
use is_proto::Sha1HmacProvider;
use is_rules::emitted::Path;

impl<H: Sha1HmacProvider + Drop, P: LocalPreference> Agent<H, P> {
    /// How many removed pairs are listed: the last 32 at most since the last ICE restart.
    pub fn removed_pair_count(&self) -> usize
        ensures { result ≡ length (removed_of self.now) }
    {
        self.pairs.removed_count()
    }

    /// The removed pair with this index, if there is one: as it was when it was removed, and why it was. The one that was removed
    /// first has index 0. Does not allocate.
    pub fn removed_pair(&self, index: usize) -> Option<RemovedPair>
        ensures { result ≡ slice_get (removed_of self.now) index }
    {
        self.pairs.removed(index)
    }

    /// The path of a removed pair: from the local candidate's base to the remote candidate's address.
    pub fn removed_pair_path(&self, pair: &RemovedPair) -> Option<Path>
        ensures { result ≡ path_between_some (record_of self.now) pair.now.local pair.now.remote }
    {
        if pair.local < self.local.len() && pair.remote < self.remote.len() {
            Some(self.path_between(pair.local, pair.remote))
        } else {
            None
        }
    }
}
