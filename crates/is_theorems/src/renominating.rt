//! Renomination: with the setting at both agents, both select one path.

ghost use Rattle.is_theorems.specs.Renominating.{OnlySelectedAreNominated, FollowedAreSelected, LastAskedAreSelected, BothSelectOnePath};
ghost use Rattle.is_theorems.specs.RenominatingExecutions.{NominatedAreLast, LastAcceptedNominationsAreLast};
ghost use Rattle.is_theorems.specs.Numbered.{GreatestAreSelected, GreatestAreKept, GreatestAreLast, GreatestStay};

use is_candidate::LocalPreference;
use is_proto::Sha1HmacProvider;

/// From a newly created agent: while nominations replace earlier ones, a check with USE-CANDIDATE is sent only on the path that was
/// selected last.
pub fn only_selected_are_nominated<H: Sha1HmacProvider, P: LocalPreference>()
    ensures { OnlySelectedAreNominated H.mac P.answers }
{}

/// From a newly created agent: after an accepted success response, and after a `handle_timeout` call that serves no early request, a
/// controlled agent with the setting has selected the pair that the peer nominated last, if that one is valid.
pub fn followed_are_selected<H: Sha1HmacProvider, P: LocalPreference>()
    ensures { FollowedAreSelected H.mac P.answers }
{}

/// From a newly created agent: the peer nominated a path last to a controlled agent with the setting, and a success response was
/// received on it, in either order. Then this path is selected by the end of the next `handle_timeout` call that serves no early
/// request, if only one pair uses its addresses and no pair that does may have been removed.
pub fn last_asked_are_selected<H: Sha1HmacProvider, P: LocalPreference>()
    ensures { LastAskedAreSelected H.mac P.answers }
{}

/// With the setting at both agents, each with a random source of its own: the last check with USE-CANDIDATE and a check of the
/// controlled agent on its path succeeded. By the end of the controlled agent's next `handle_timeout` call that serves no early request,
/// both selected this path last, whatever priorities each has, unless a pair of the path may have been removed.
pub fn both_select_one_path<H: Sha1HmacProvider, P: LocalPreference>()
    ensures { BothSelectOnePath H.mac P.answers }
{
    only_selected_are_nominated::<H, P>();
    last_asked_are_selected::<H, P>();
}

/// A controlling agent with the setting, which may share its random source, sends a check on a path whose pairs are nominated. Then
/// this path is the one that it selected last.
pub fn nominated_are_last<H: Sha1HmacProvider, P: LocalPreference>()
    ensures { NominatedAreLast H.mac P.answers }
{}

/// A controlled agent with the setting, which may share its random source, accepted the nomination of a path last, and received a
/// success response on it. Then it selected this path last, from its next `handle_timeout` call on that serves no early request, if
/// only one pair uses this path's addresses and no pair that does may have been removed.
pub fn last_accepted_nominations_are_last<H: Sha1HmacProvider, P: LocalPreference>()
    ensures { LastAcceptedNominationsAreLast H.mac P.answers }
{}

/// From a newly created agent: a controlled agent goes by numbers, and one eligible pair was nominated by a greater number than all others.
/// Then it is selected, after an accepted success response, and after a `handle_timeout` call that serves no early request.
pub fn greatest_are_selected<H: Sha1HmacProvider, P: LocalPreference>()
    ensures { GreatestAreSelected H.mac P.answers }
{}

/// Once a pair is selected that was nominated by a greater number than all others, it stays selected as long as that is so and the pair is
/// eligible, whatever is lost, late or replayed: a lesser or equal number moves the selection on no path.
pub fn greatest_are_kept<H: Sha1HmacProvider, P: LocalPreference>()
    ensures { GreatestAreKept H.mac P.answers }
{}

/// A controlled agent, which may share its random source, goes by numbers, and one eligible pair was nominated by a greater number than all
/// others. Then this pair's path is the one that it selected last, from its next `handle_timeout` call on that serves no early request,
/// whatever it accepted before.
pub fn greatest_are_last<H: Sha1HmacProvider, P: LocalPreference>()
    ensures { GreatestAreLast H.mac P.answers }
{}

/// The nomination with the greatest number has arrived, and its path is selected. It stays the path that was selected last while a pair on
/// it is eligible, whatever is lost, late or replayed: requests that nominate other paths by less move the selection nowhere.
pub fn greatest_stay<H: Sha1HmacProvider, P: LocalPreference>()
    ensures { GreatestStay H.mac P.answers }
{}
