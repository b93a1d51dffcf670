//! Roles: the external view of a new agent, and how a conflict of two agents ends.

ghost use Rattle.is_theorems.specs.Carried.{CarriedResolve};
ghost use Rattle.is_theorems.specs.Conflicts.{ConflictsResolve};
ghost use Rattle.is_theorems.specs.KeptRole.{LiteKeepsRole};
ghost use Rattle.is_theorems.specs.RoleView.{FreshIsNew};

use crate::exchanging::checks_are_answered;
use is_candidate::LocalPreference;
use is_proto::Sha1HmacProvider;
use is_stun::theorems::{checks_fit, replies_fit, written_is_read};

/// A newly created agent has the external view of a new agent.
pub fn fresh_is_new<H: Sha1HmacProvider, P: LocalPreference>()
    ensures { FreshIsNew H P }
{}

/// With the profile `Modern` no packet and no `handle_timeout` call changes the role of a lite agent; only `set_controlling` does.
pub fn lite_agents_keep_their_role<H: Sha1HmacProvider, P: LocalPreference>()
    ensures { LiteKeepsRole H.mac P.answers }
{}

/// One check resolves a role conflict: it is delivered to the other agent, which has the sender's role. Either that agent has the
/// smaller tie-breaker and takes the other role, or its 487, delivered at any time while the transaction is pending, makes the sender
/// take it.
pub fn conflicts_resolve<H: Sha1HmacProvider, P: LocalPreference>()
    ensures same { ConflictsResolve H.mac P.answers }
    ensures carried { CarriedResolve H.mac P.answers }
{
    written_is_read();
    checks_fit();
    replies_fit();
    checks_are_answered::<H, P>();
}
