//! All that a user may choose, in one struct that C sets and reads.

ghost use Rattle.std.specs.Prelude.{◌≡◌, None};
ghost use Rattle.is_rules.specs.Settings.{original_settings, modern_settings};
ghost use Rattle.is_c.specs.Slots.{held_by};
ghost use Rattle.is_c_calls.specs.Following.{Followed, in_turn};
ghost use Rattle.is_c_calls.specs.Held.{At};
ghost use Rattle.is_c_calls.specs.AgentSettings.{profile_of, timeout_of, settings_of, reported_settings, GivesSettings, ReturnsSettings};
ghost use Rattle.is_c_calls.specs.Uses.{SetSettings};

use crate::codes;
use crate::deadlines::followed;
use crate::settings::{limit_of, number_of_limit};
use crate::slot::Slot;
use is_c_calls::AgentSettings;
use is_proto::Duration;
use is_rules::settings::Settings;
use is_stun::stun::{ConsentSetting, Profile};
use std::alloc::Global;

fn profile_of(modern: bool) -> Profile
    ensures { result ≡ profile_of modern }
{
    if modern {
        Profile::Modern
    } else {
        Profile::Original
    }
}

/// 0 means that the timing gives the time of consent.
fn timeout_of(nanoseconds: u64) -> Option<Duration>
    ensures { result ≡ timeout_of nanoseconds }
{
    if nanoseconds == 0 {
        None
    } else {
        Some(Duration(nanoseconds))
    }
}

fn settings_of(settings: &AgentSettings) -> Settings
    ensures { result ≡ settings_of settings.now }
{
    Settings {
        profile: profile_of(settings.modern),
        timing_advance: Duration(settings.timing_advance),
        initial_rto: Duration(settings.initial_rto),
        max_rto: Duration(settings.max_rto),
        max_retransmits: settings.max_retransmits,
        lite_timeout: Duration(settings.lite_timeout),
        consent: ConsentSetting {
            timeout: timeout_of(settings.consent_timeout),
            strict: settings.strict_consent,
        },
        max_pairs: settings.max_pairs,
        max_discovered: limit_of(settings.max_discovered),
        max_candidates: limit_of(settings.max_candidates),
        renomination: settings.renomination,
    }
}

fn reported_settings(settings: Settings) -> AgentSettings
    ensures { result ≡ reported_settings settings }
{
    let consent_timeout = match settings.consent.timeout {
        Some(timeout) => timeout.0,
        None => 0,
    };
    AgentSettings {
        timing_advance: settings.timing_advance.0,
        initial_rto: settings.initial_rto.0,
        max_rto: settings.max_rto.0,
        lite_timeout: settings.lite_timeout.0,
        consent_timeout,
        max_retransmits: settings.max_retransmits,
        max_pairs: settings.max_pairs,
        max_discovered: number_of_limit(settings.max_discovered),
        max_candidates: number_of_limit(settings.max_candidates),
        room: [0, 0, 0, 0],
        modern: settings.profile.is_modern(),
        strict_consent: settings.consent.strict,
        renomination: settings.renomination,
    }
}

/// Writes the settings of the Rust crate `is` 0.12.0.
#[unsafe(no_mangle)]
pub extern "C" fn is_ice_original_settings(settings: &mut AgentSettings) -> i32
    ensures { GivesSettings original_settings settings.new result }
{
    *settings = reported_settings(Settings::original());
    codes::OK
}

/// Writes the settings with which a new agent begins.
#[unsafe(no_mangle)]
pub extern "C" fn is_ice_modern_settings(settings: &mut AgentSettings) -> i32
    ensures { GivesSettings modern_settings settings.new result }
{
    *settings = reported_settings(Settings::modern());
    codes::OK
}

/// Sets all that a user may choose. Fails if no check may be sent.
#[unsafe(no_mangle)]
pub extern "C" fn is_ice_set_settings(
    alloc: Global,
    slot: &mut Slot,
    settings: &AgentSettings,
) -> i32
    ensures { At (Followed in_turn (SetSettings settings.now)) (held_by slot.old) result (held_by slot.new) }
{
    let Some(held) = slot.held() else {
        return codes::NO_AGENT;
    };
    if settings.max_retransmits == 0 {
        return codes::BAD_LIMIT;
    }
    held.agent.set_settings(settings_of(settings));
    followed(held, false, codes::OK)
}

/// Writes the agent's settings.
#[unsafe(no_mangle)]
pub extern "C" fn is_ice_settings(
    alloc: Global,
    slot: &mut Slot,
    settings: &mut AgentSettings,
) -> i32
    ensures returned { At (ReturnsSettings settings.new) (held_by slot.old) result (held_by slot.new) }
    ensures stays { held_by slot.new ≡ held_by slot.old }
    ensures without { held_by slot.old ≡ None → settings.new ≡ settings.old }
{
    let Some(held) = slot.held() else {
        return codes::NO_AGENT;
    };
    *settings = reported_settings(held.agent.settings());
    codes::OK
}
