//! C's calls are an execution of the agent, and what holds along its log.

ghost use Rattle.is_c_theorems.specs.CallLogs.{SessionsAreRuns};
ghost use Rattle.is_c_theorems.specs.Chosen.{SettingsAreThoseSet};
ghost use Rattle.is_c_theorems.specs.Executions.{PathsAreAnswered, PathsAreNominatedByPeer, PathsAreFirstChoice, EachQueuesOne, ConnectedAreAlive, ConnectedHavePath, StaysBounded};

use is_c_calls::Preference;
use is_proto::DefaultSha1HmacProvider;
use is_theorems::consent::connected_are_answered;
use is_theorems::flooding::{discoveries_stay_few, lists_stay_bounded, queues_are_short};
use is_theorems::logs::queues_are_kept;
use is_theorems::selecting::{
    selections_are_answered, selections_are_nominated_since, selections_are_top,
};
use is_theorems::settling::states_agree;
use is_theorems::transitions::{all_settings_are_set_in_turn, settings_are_set};

/// The calls of C on an agent are an execution of it, whatever C passes.
pub fn sessions_are_runs()
    ensures { SessionsAreRuns }
{
    all_settings_are_set_in_turn::<DefaultSha1HmacProvider, Preference>();
}

/// The agent's settings are those that C set last, whatever it received.
pub fn settings_are_those_set()
    ensures { SettingsAreThoseSet }
{
    all_settings_are_set_in_turn::<DefaultSha1HmacProvider, Preference>();
    settings_are_set::<DefaultSha1HmacProvider, Preference>();
}

/// Each path that the agent selects was answered since the last clear.
pub fn paths_are_answered()
    ensures { PathsAreAnswered }
{
    selections_are_answered::<DefaultSha1HmacProvider, Preference>();
}

/// Each path that an agent selects while it was controlled since the last clear was nominated by the peer since the last restart.
pub fn paths_are_nominated_by_peer()
    ensures { PathsAreNominatedByPeer }
{
    selections_are_nominated_since::<DefaultSha1HmacProvider, Preference>();
}

/// After each nomination point at which a pair is eligible, the path that was selected last is the first choice.
pub fn paths_are_first_choice()
    ensures { PathsAreFirstChoice }
{
    selections_are_top::<DefaultSha1HmacProvider, Preference>();
}

/// Each call queues at most one packet.
pub fn each_queues_one()
    ensures { EachQueuesOne }
{
    queues_are_kept::<DefaultSha1HmacProvider, Preference>();
}

/// Consent by the clock: an agent is connected only on a path that was answered, or checked by the peer, recently enough.
pub fn connected_are_alive()
    ensures { ConnectedAreAlive }
{
    settings_are_set::<DefaultSha1HmacProvider, Preference>();
    connected_are_answered::<DefaultSha1HmacProvider, Preference>();
}

/// An agent is connected if and only if it has a path.
pub fn connected_have_path()
    ensures { ConnectedHavePath }
{
    settings_are_set::<DefaultSha1HmacProvider, Preference>();
    states_agree::<DefaultSha1HmacProvider, Preference>();
}

/// What an agent stores is bounded, whatever it receives.
pub fn stays_bounded()
    ensures { StaysBounded }
{
    settings_are_set::<DefaultSha1HmacProvider, Preference>();
    lists_stay_bounded::<DefaultSha1HmacProvider, Preference>();
    discoveries_stay_few::<DefaultSha1HmacProvider, Preference>();
    queues_are_short::<DefaultSha1HmacProvider, Preference>();
}
