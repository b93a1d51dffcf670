//! Two agents of C, over any network.

ghost use Rattle.is_c_theorems.specs.TwoAgents.{GreaterKeepsRole, LesserSwitchesOnce, RolesStayOpposite, SelectedAreTraced};

use is_c_calls::Preference;
use is_proto::DefaultSha1HmacProvider;
use is_theorems::selecting::waiting_are_answered;
use is_theorems::transitions::{
    all_settings_are_set_in_turn, fresh_is_sound, path_effect, trade_effect,
};

/// Of two agents, the one with the greater tie-breaker keeps its role.
pub fn greater_keeps_role()
    ensures { GreaterKeepsRole }
{
    path_effect::<DefaultSha1HmacProvider, Preference>();
    trade_effect::<DefaultSha1HmacProvider, Preference>();
    fresh_is_sound::<DefaultSha1HmacProvider, Preference>();
    all_settings_are_set_in_turn::<DefaultSha1HmacProvider, Preference>();
}

/// The agent with the smaller tie-breaker changes its role once at most.
pub fn lesser_switches_once()
    ensures { LesserSwitchesOnce }
{
    path_effect::<DefaultSha1HmacProvider, Preference>();
    trade_effect::<DefaultSha1HmacProvider, Preference>();
    fresh_is_sound::<DefaultSha1HmacProvider, Preference>();
    all_settings_are_set_in_turn::<DefaultSha1HmacProvider, Preference>();
}

/// Once the roles of the two agents are different, they stay so.
pub fn roles_stay_opposite()
    ensures { RolesStayOpposite }
{
    path_effect::<DefaultSha1HmacProvider, Preference>();
    trade_effect::<DefaultSha1HmacProvider, Preference>();
    fresh_is_sound::<DefaultSha1HmacProvider, Preference>();
    all_settings_are_set_in_turn::<DefaultSha1HmacProvider, Preference>();
}

/// Each path that C gets by a `NominatedSend` was answered by the other agent, to which C had passed the check of this path.
pub fn selected_are_traced()
    ensures { SelectedAreTraced }
{
    path_effect::<DefaultSha1HmacProvider, Preference>();
    trade_effect::<DefaultSha1HmacProvider, Preference>();
    fresh_is_sound::<DefaultSha1HmacProvider, Preference>();
    all_settings_are_set_in_turn::<DefaultSha1HmacProvider, Preference>();
    waiting_are_answered::<DefaultSha1HmacProvider, Preference>();
}
