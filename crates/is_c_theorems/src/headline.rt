//! What C may rely on, in C's own words.

ghost use Rattle.is_c_theorems.specs.Headline.{NewAgentsAreFresh, FollowedAreUses, UnacceptedChangeNothing, SelectedAreAnswered, SelectedAreNominatedByPeer};

use is_c_calls::Preference;
use is_proto::DefaultSha1HmacProvider;
use is_theorems::logs::queues_are_kept;
use is_theorems::selecting::{waiting_are_answered, waiting_are_nominated_since};
use is_theorems::transitions::{
    all_settings_are_set_in_turn, fresh_is_sound, path_effect, trade_effect,
};

/// A new agent is the one in which the sessions below begin.
pub fn new_agents_are_fresh()
    ensures { NewAgentsAreFresh }
{}

/// A call of C is one use, or two.
pub fn followed_are_uses()
    ensures { FollowedAreUses }
{}

/// A packet that the agent does not accept changes nothing.
pub fn unaccepted_change_nothing()
    ensures { UnacceptedChangeNothing }
{}

/// Each path that C gets by a `NominatedSend` was answered since pairs were last cleared: C passed a signed response to a check that it got, or
/// has still to poll.
pub fn selected_are_answered()
    ensures { SelectedAreAnswered }
{
    all_settings_are_set_in_turn::<DefaultSha1HmacProvider, Preference>();
    path_effect::<DefaultSha1HmacProvider, Preference>();
    fresh_is_sound::<DefaultSha1HmacProvider, Preference>();
    trade_effect::<DefaultSha1HmacProvider, Preference>();
    queues_are_kept::<DefaultSha1HmacProvider, Preference>();
    waiting_are_answered::<DefaultSha1HmacProvider, Preference>();
}

/// Each path that C gets by a `NominatedSend`, of an agent that was controlled since the last restart, was nominated by the peer since
/// then: C passed a request that nominates it.
pub fn selected_are_nominated_by_peer()
    ensures { SelectedAreNominatedByPeer }
{
    all_settings_are_set_in_turn::<DefaultSha1HmacProvider, Preference>();
    waiting_are_nominated_since::<DefaultSha1HmacProvider, Preference>();
}
