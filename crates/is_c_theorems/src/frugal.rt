//! How many checks an agent of C sends, if C goes by the time that `is_ice_poll_timeout` returns.

ghost use Rattle.is_c_theorems.specs.FrugalCalls.{DeadlinesKeepCredit, ReturnedTimesKeepCredit, FrugalSecondsHaveFewChecks};

use is_c_calls::Preference;
use is_proto::DefaultSha1HmacProvider;
use is_theorems::counting::checks_are_paced;
use is_theorems::transitions::{all_settings_are_set_in_turn, settings_are_set};

/// The deadline that a slot keeps with the profile `Modern` is within the credit for checks.
pub fn deadlines_keep_credit()
    ensures { DeadlinesKeepCredit }
{
    all_settings_are_set_in_turn::<DefaultSha1HmacProvider, Preference>();
    settings_are_set::<DefaultSha1HmacProvider, Preference>();
}

/// So is the time that `is_ice_poll_timeout` returns.
pub fn returned_times_keep_credit()
    ensures { ReturnedTimesKeepCredit }
{
    all_settings_are_set_in_turn::<DefaultSha1HmacProvider, Preference>();
    settings_are_set::<DefaultSha1HmacProvider, Preference>();
}

/// With the profile `Modern` and a pacing interval of at least 50 ms, at most 49 checks leave in a second in which each `is_ice_handle_timeout`
/// call comes no sooner than `is_ice_poll_timeout` returned since the last one, whatever is received.
pub fn frugal_seconds_have_few_checks()
    ensures { FrugalSecondsHaveFewChecks }
{
    all_settings_are_set_in_turn::<DefaultSha1HmacProvider, Preference>();
    settings_are_set::<DefaultSha1HmacProvider, Preference>();
    checks_are_paced::<DefaultSha1HmacProvider, Preference>();
}
