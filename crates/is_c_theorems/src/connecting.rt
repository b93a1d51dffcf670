//! How both of two agents of C become connected.

ghost use Rattle.is_c_theorems.specs.Connecting.{ResponsesConnect, DeliveredAreAccepted, NominatedConnect, NominationsConnect, BothBecomeConnected};

use is_c_calls::Preference;
use is_proto::DefaultSha1HmacProvider;
use is_proto::theorems::macs_have_twenty_bytes;
use is_theorems::exchanging::{checks_are_answered, checks_ask};
use is_theorems::selecting::nominations_select_at_once;
use is_theorems::settling::states_agree;
use is_theorems::staying::pairs_stay;
use is_theorems::transitions::{
    all_settings_are_set_in_turn, path_effect, settings_are_set, trade_effect,
};

/// A response that a controlling agent accepts connects it at once.
pub fn responses_connect()
    ensures { ResponsesConnect }
{
    all_settings_are_set_in_turn::<DefaultSha1HmacProvider, Preference>();
    path_effect::<DefaultSha1HmacProvider, Preference>();
    settings_are_set::<DefaultSha1HmacProvider, Preference>();
    states_agree::<DefaultSha1HmacProvider, Preference>();
}

/// A check that is delivered is served, and its response is accepted.
pub fn delivered_are_accepted()
    ensures { DeliveredAreAccepted }
{
    all_settings_are_set_in_turn::<DefaultSha1HmacProvider, Preference>();
    path_effect::<DefaultSha1HmacProvider, Preference>();
    trade_effect::<DefaultSha1HmacProvider, Preference>();
    macs_have_twenty_bytes();
    checks_are_answered::<DefaultSha1HmacProvider, Preference>();
}

/// A nomination that is delivered, and a response, connect a controlled agent.
pub fn nominated_connect()
    ensures { NominatedConnect }
{
    all_settings_are_set_in_turn::<DefaultSha1HmacProvider, Preference>();
    path_effect::<DefaultSha1HmacProvider, Preference>();
    settings_are_set::<DefaultSha1HmacProvider, Preference>();
    states_agree::<DefaultSha1HmacProvider, Preference>();
    trade_effect::<DefaultSha1HmacProvider, Preference>();
    macs_have_twenty_bytes();
    checks_are_answered::<DefaultSha1HmacProvider, Preference>();
    checks_ask::<DefaultSha1HmacProvider, Preference>();
}

/// If the response came first, the nomination connects a controlled agent at once.
pub fn nominations_connect()
    ensures { NominationsConnect }
{
    all_settings_are_set_in_turn::<DefaultSha1HmacProvider, Preference>();
    path_effect::<DefaultSha1HmacProvider, Preference>();
    settings_are_set::<DefaultSha1HmacProvider, Preference>();
    states_agree::<DefaultSha1HmacProvider, Preference>();
    nominations_select_at_once::<DefaultSha1HmacProvider, Preference>();
    trade_effect::<DefaultSha1HmacProvider, Preference>();
    macs_have_twenty_bytes();
    checks_are_answered::<DefaultSha1HmacProvider, Preference>();
    checks_ask::<DefaultSha1HmacProvider, Preference>();
    pairs_stay::<DefaultSha1HmacProvider, Preference>();
}

/// Two agents become connected, if a check with its response, and a nomination, are delivered.
pub fn both_become_connected()
    ensures { BothBecomeConnected }
{
    all_settings_are_set_in_turn::<DefaultSha1HmacProvider, Preference>();
    path_effect::<DefaultSha1HmacProvider, Preference>();
    settings_are_set::<DefaultSha1HmacProvider, Preference>();
    states_agree::<DefaultSha1HmacProvider, Preference>();
    trade_effect::<DefaultSha1HmacProvider, Preference>();
    macs_have_twenty_bytes();
    checks_are_answered::<DefaultSha1HmacProvider, Preference>();
    checks_ask::<DefaultSha1HmacProvider, Preference>();
}
