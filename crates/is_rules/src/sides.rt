//! The candidates and the role from which pairs are formed.

ghost use Rattle.is_rules.specs.Kept.{NoneTooHigh};

use crate::emitted::Path;
use crate::places::path_at;
use is_candidate::Candidate;
use is_pair::pair::CandidatePair;

/// The candidates from which pairs are formed, and the role that determines their priorities.
#[derive(Clone, Copy)]
pub struct Sides<'a> {
    /// The local candidates.
    pub local: &'a [Candidate],
    /// The remote candidates.
    pub remote: &'a [Candidate],
    /// The agent is controlling.
    pub controlling: bool,
    /// The agent is ICE-lite.
    pub lite: bool,
    /// Kinds take turns: at the limit the kind with the most pairs loses one.
    pub modern: bool,
    // so that each pair priority fits into 64 bits
    ghost low: { NoneTooHigh local.now },
}

impl Sides<'_> {
    ghost use Rattle.std.specs.Prelude.{◌≡◌, true};
    ghost use Rattle.is_rules.specs.Kept.{is_placed};
    ghost use Rattle.is_rules.specs.Sending.{path_at};

    /// The indices of the pair are in the lists. A test of pairs asks this, since it may be given any pair; each pair of an
    /// agent passes.
    pub(crate) fn has(&self, pair: &CandidatePair) -> bool
        ensures { result ≡ is_placed self.now.local.now self.now.remote.now pair.now }
    {
        pair.local_idx() < self.local.len() && pair.remote_idx() < self.remote.len()
    }

    /// The path of the pair.
    pub(crate) fn path_of(&self, pair: &CandidatePair) -> Path
        requires { is_placed self.now.local.now self.now.remote.now pair.now ≡ true }
        ensures { result ≡ path_at self.now.local.now self.now.remote.now pair.now.local pair.now.remote }
    {
        path_at(self.local, self.remote, pair.local_idx(), pair.remote_idx())
    }
}
