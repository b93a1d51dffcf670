//! Role conflicts (RFC 8445, section 7.3.1.1): which agent switches its role, and the new priorities; the agent's part:
//! `is_agent::roles`.

ghost use Rattle.std.specs.Prelude.{◌≡◌, ℕ, true, map};
ghost use Rattle.is_pair.specs.Multiset.{are_below};
ghost use Rattle.is_pair.specs.Checklists.{multiset_of, HasRoom};
ghost use Rattle.is_rules.specs.FormingView.{sides_view};
ghost use Rattle.is_rules.specs.Kept.{are_placed};
ghost use Rattle.is_rules.specs.Roles.{conflict_by, rival, with_priority_in};

use crate::forming::combined_priority;
use crate::sides::Sides;
use is_pair::checklist::{Checklist, PairPriority};
use is_pair::pair::CandidatePair;

/// What happens to the agent's role at a request.
#[derive(Clone, Copy, Debug, PartialEq, Eq)]
pub enum Conflict {
    /// The sender does not claim the agent's role.
    Absent,
    /// The sender claims the agent's role with no greater tie-breaker, or the agent keeps its role in any case: the agent sends a 487.
    Send487,
    /// The sender claims the agent's role with a greater tie-breaker: the agent switches its role.
    SwitchRole,
}

/// The conflict, by the agent's own tie-breaker and that of a sender that claims the same role. An agent that `keeps` its role sends a
/// 487 whatever the tie-breakers are.
pub fn conflict_by(keeps: bool, own: u64, rival: Option<u64>) -> Conflict
    ensures { result ≡ conflict_by keeps own rival }
{
    match rival {
        None => Conflict::Absent,
        Some(rival) if keeps || rival <= own => Conflict::Send487,
        Some(_) => Conflict::SwitchRole,
    }
}

/// The priority of a pair by its candidates and the present role.
#[derive(Clone, Copy)]
struct Combined<'a> {
    sides: Sides<'a>,
}

impl PairPriority for Combined<'_> {
    ghost use Rattle.std.specs.Prelude.{if◌then◌else◌};
    ghost use Rattle.is_rules.specs.Forming.{combined_priority};
    ghost use Rattle.is_rules.specs.FormingView.{sides_view};
    ghost use Rattle.is_rules.specs.Kept.{is_placed};

    ghost gives = { λ t p. if is_placed t.sides.local.now t.sides.remote.now p then combined_priority (sides_view t.sides) (p.local, p.remote)
        else p.priority };

    fn priority(&self, pair: &CandidatePair) -> u64 {
        if self.sides.has(pair) {
            combined_priority(self.sides, (pair.local_idx(), pair.remote_idx()))
        } else {
            pair.prio()
        }
    }
}

/// Computes all priorities again.
pub fn reprioritize_all(pairs: &mut Checklist, sides: Sides<'_>)
    requires { are_placed sides.local.now sides.remote.now (multiset_of pairs.old) ≡ true }
    ensures placed { are_placed sides.entry.local.now sides.entry.remote.now (multiset_of pairs.new) ≡ true }
    ensures set { multiset_of pairs.new ≡ map (with_priority_in (sides_view sides.entry)) (multiset_of pairs.old) }
    ensures room { (n : ℕ) → HasRoom n pairs.old → HasRoom n pairs.new }
    ensures below { (n : ℕ) → are_below n (multiset_of pairs.old) ≡ true → are_below n (multiset_of pairs.new) ≡ true }
{
    pairs.set_priorities(&Combined { sides });
}
