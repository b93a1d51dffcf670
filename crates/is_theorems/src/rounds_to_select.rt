//! Within how many rounds an agent selects a path, also if candidates are added meanwhile.

ghost use Rattle.is_theorems.specs.Executions.{ExecutionsSelect};
ghost use Rattle.is_theorems.specs.DueRounds.{AnsweredDueRoundsSelect};
ghost use Rattle.is_theorems.specs.OpenRounds.{AnsweredOpenRoundsSelect};
ghost use Rattle.is_theorems.specs.Progress.{AnsweredSelect};
ghost use Rattle.is_theorems.specs.Reached.{AskedRoundsSelect};
ghost use Rattle.is_theorems.specs.Rounds.{AnsweredRoundsSelect};

use is_candidate::LocalPreference;
use is_proto::Sha1HmacProvider;

/// A controlling agent selects a path within as many rounds as there are pairs that are due no later than one whose checks are
/// answered in their rounds, or within twice as many if checks may go ahead of pairs that are due earlier (`Profile`). So it is in the
/// theorems below: for n rounds read 2n.
pub fn answered_select<H: Sha1HmacProvider, P: LocalPreference>()
    ensures { AnsweredSelect H.mac P.answers }
{}

/// From a newly created agent: at a `handle_timeout` call of the log n pairs are due by an earlier time. The call begins n rounds
/// in which the checks of one of these pairs are answered, while the agent is controlling. Then a path is selected in one of the
/// rounds.
pub fn answered_rounds_select<H: Sha1HmacProvider, P: LocalPreference>()
    ensures { AnsweredRoundsSelect H.mac P.answers }
{}

/// From a newly created agent, which may share its random source: no pair of a controlling agent is valid, and n pairs are due. Then it
/// selects a path in one of n rounds in which the checks of one of these pairs are answered.
pub fn executions_select<H: Sha1HmacProvider, P: LocalPreference>()
    ensures { ExecutionsSelect H.mac P.answers }
{}

/// The rounds suffice for a pair that is due (`pairs_are_reached`), the checks on its path are answered in them, and the peer nominates
/// the path to a controlled agent. Then a path is selected by the end of the next `handle_timeout` call that serves no early request, if
/// only one pair uses this path's addresses and no pair that does may have been removed.
pub fn asked_rounds_select<H: Sha1HmacProvider, P: LocalPreference>()
    ensures { AskedRoundsSelect H.mac P.answers }
{}

/// From a newly created agent: no pair of a controlling agent is valid, and one is due. Then a path is selected in one of the rounds
/// that follow, if they suffice and the checks of this pair are answered in them, unless a candidate that is added in them may remove
/// a pair of the path.
pub fn open_rounds_select<H: Sha1HmacProvider, P: LocalPreference>()
    ensures { AnsweredOpenRoundsSelect H.mac P.answers }
{
    answered_rounds_select::<H, P>();
}

/// From a newly created agent: no pair of a controlling agent is valid, and one is due by the first timeout of the rounds, and maybe not
/// before it. If its checks are answered, a path is selected in these rounds, with the exception of `open_rounds_select`. One round
/// suffices for a single pair, otherwise 2m - 1 later ones for m pairs when the second timeout comes, and one more for each pair that is
/// added in these.
pub fn due_rounds_select<H: Sha1HmacProvider, P: LocalPreference>()
    ensures { AnsweredDueRoundsSelect H.mac P.answers }
{}
