//! Settings that the caller may change.

ghost use Rattle.std.specs.Prelude.{◌≡◌, ◌==◌, Some, unwrap_or};
ghost use Rattle.is_c_calls.specs.Codes.{BAD_LIMIT, done_code, found_code};
ghost use Rattle.is_c_calls.specs.Limits.{NO_LIMIT, limit_of};
ghost use Rattle.is_c.specs.Roles.{is_controlling};
ghost use Rattle.is_c.specs.Slots.{held_record, held_by};
ghost use Rattle.is_c_calls.specs.Following.{Followed, at_once, in_turn};
ghost use Rattle.is_c_calls.specs.Held.{At};
ghost use Rattle.is_c_calls.specs.declared.preference.Preference.TheVariants.{ByDefault, Fixed, ByTable};
ghost use Rattle.is_c_calls.specs.Uses.{Does, SetControlling, SetLite, SetRenomination, SetTieBreaker, SetMaxPairs, SetMaxDiscovered, SetMaxCandidates, SetTimingAdvance, SetInitialRto, SetMaxRto, SetLiteTimeout, SetMaxRetransmits, SetMtu, SetPreference, SkipPairIds};

use crate::codes;
use crate::deadlines::followed;
use crate::held::HeldAgent;
use crate::slot::Slot;
use is_c_calls::{Preference, PreferenceTable};
use is_proto::Duration;
use std::alloc::Global;

/// Gives the agent the controlling or the controlled role. Fails for a lite agent that keeps its role.
#[unsafe(no_mangle)]
pub extern "C" fn is_ice_set_controlling(alloc: Global, slot: &mut Slot, controlling: bool) -> i32
    ensures { At (Followed at_once (SetControlling controlling)) (held_by slot.old) result (held_by slot.new) }
{
    let Some(held) = slot.held() else {
        return codes::NO_AGENT;
    };
    if held.agent.keeps_role() && controlling {
        return codes::LITE_STAYS_CONTROLLED;
    }
    held.agent.set_controlling(controlling);
    followed(held, true, codes::OK)
}

fn is_controlling(made_offer: bool, lite: bool, other_is_lite: bool) -> bool
    ensures { result ≡ is_controlling made_offer lite other_is_lite }
{
    match (lite, other_is_lite) {
        (true, false) => false,
        (false, true) => true,
        _ => made_offer,
    }
}

/// Whether the agent is controlling at first (RFC 8445, section 6.1.1). NOTHING: it is controlled.
#[unsafe(no_mangle)]
pub extern "C" fn is_ice_role(made_offer: bool, lite: bool, other_is_lite: bool) -> i32
    ensures { result ≡ found_code (is_controlling made_offer lite other_is_lite) }
{
    codes::found_code(is_controlling(made_offer, lite, other_is_lite))
}

/// Makes the agent a lite agent, or a full one.
#[unsafe(no_mangle)]
pub extern "C" fn is_ice_set_lite(alloc: Global, slot: &mut Slot, lite: bool) -> i32
    ensures { At (Followed in_turn (SetLite lite)) (held_by slot.old) result (held_by slot.new) }
{
    let Some(held) = slot.held() else {
        return codes::NO_AGENT;
    };
    held.agent.set_ice_lite(lite);
    followed(held, false, codes::OK)
}

/// Lets each nomination replace the ones before, so that both agents select the same path.
#[unsafe(no_mangle)]
pub extern "C" fn is_ice_set_renomination(alloc: Global, slot: &mut Slot, enabled: bool) -> i32
    ensures { At (Followed in_turn (SetRenomination enabled)) (held_by slot.old) result (held_by slot.new) }
{
    let Some(held) = slot.held() else {
        return codes::NO_AGENT;
    };
    held.agent.set_renomination(enabled);
    followed(held, false, codes::OK)
}

/// Sets the number that resolves role conflicts.
#[unsafe(no_mangle)]
pub extern "C" fn is_ice_set_tie_breaker(alloc: Global, slot: &mut Slot, tie_breaker: u64) -> i32
    ensures { At (Does (SetTieBreaker tie_breaker)) (held_by slot.old) result (held_by slot.new) }
{
    let Some(held) = slot.held() else {
        return codes::NO_AGENT;
    };
    held.agent.set_control_tie_breaker(tie_breaker);
    codes::OK
}

/// Sets the greatest number of pairs after forming.
#[unsafe(no_mangle)]
pub extern "C" fn is_ice_set_max_pairs(alloc: Global, slot: &mut Slot, limit: usize) -> i32
    ensures { At (Does (SetMaxPairs limit)) (held_by slot.old) result (held_by slot.new) }
{
    let Some(held) = slot.held() else {
        return codes::NO_AGENT;
    };
    held.agent.set_max_candidate_pairs(limit);
    codes::OK
}

/// The limit that a number stands for: the greatest number means none.
pub(crate) fn limit_of(number: usize) -> Option<usize>
    ensures { result ≡ limit_of number }
{
    if number == usize::MAX {
        None
    } else {
        Some(number)
    }
}

/// The number that stands for the limit.
pub(crate) fn number_of_limit(limit: Option<usize>) -> usize
    ensures { result ≡ unwrap_or limit NO_LIMIT }
{
    limit.unwrap_or(usize::MAX)
}

/// Sets how many remote candidates requests may bring; the greatest number means that there is no limit.
#[unsafe(no_mangle)]
pub extern "C" fn is_ice_set_max_discovered(alloc: Global, slot: &mut Slot, limit: usize) -> i32
    ensures { At (Does (SetMaxDiscovered limit)) (held_by slot.old) result (held_by slot.new) }
{
    let Some(held) = slot.held() else {
        return codes::NO_AGENT;
    };
    held.agent.set_max_discovered(limit_of(limit));
    codes::OK
}

/// Sets how many candidates of each side may be listed: at the limit none is added. The greatest number means that there is no limit.
#[unsafe(no_mangle)]
pub extern "C" fn is_ice_set_max_candidates(alloc: Global, slot: &mut Slot, limit: usize) -> i32
    ensures { At (Does (SetMaxCandidates limit)) (held_by slot.old) result (held_by slot.new) }
{
    let Some(held) = slot.held() else {
        return codes::NO_AGENT;
    };
    held.agent.set_max_candidates(limit_of(limit));
    codes::OK
}

/// Sets the pacing interval of what the agent sends, in nanoseconds.
#[unsafe(no_mangle)]
pub extern "C" fn is_ice_set_timing_advance(alloc: Global, slot: &mut Slot, nanoseconds: u64) -> i32
    ensures { At (Followed in_turn (SetTimingAdvance nanoseconds)) (held_by slot.old) result (held_by slot.new) }
{
    let Some(held) = slot.held() else {
        return codes::NO_AGENT;
    };
    held.agent.set_timing_advance(Duration(nanoseconds));
    followed(held, false, codes::OK)
}

/// Sets the RTO after a pair's first check, in nanoseconds.
#[unsafe(no_mangle)]
pub extern "C" fn is_ice_set_initial_rto(alloc: Global, slot: &mut Slot, nanoseconds: u64) -> i32
    ensures { At (Followed in_turn (SetInitialRto nanoseconds)) (held_by slot.old) result (held_by slot.new) }
{
    let Some(held) = slot.held() else {
        return codes::NO_AGENT;
    };
    held.agent.set_initial_stun_rto(Duration(nanoseconds));
    followed(held, false, codes::OK)
}

/// Sets the greatest RTO after a check, in nanoseconds.
#[unsafe(no_mangle)]
pub extern "C" fn is_ice_set_max_rto(alloc: Global, slot: &mut Slot, nanoseconds: u64) -> i32
    ensures { At (Followed in_turn (SetMaxRto nanoseconds)) (held_by slot.old) result (held_by slot.new) }
{
    let Some(held) = slot.held() else {
        return codes::NO_AGENT;
    };
    held.agent.set_max_stun_rto(Duration(nanoseconds));
    followed(held, false, codes::OK)
}

/// Sets how long an ICE-lite agent keeps a pair after the peer's last check on it, in nanoseconds.
#[unsafe(no_mangle)]
pub extern "C" fn is_ice_set_lite_timeout(alloc: Global, slot: &mut Slot, nanoseconds: u64) -> i32
    ensures { At (Followed in_turn (SetLiteTimeout nanoseconds)) (held_by slot.old) result (held_by slot.new) }
{
    let Some(held) = slot.held() else {
        return codes::NO_AGENT;
    };
    held.agent.set_lite_timeout(Duration(nanoseconds));
    followed(held, false, codes::OK)
}

/// Makes the number of the next pair at least this one.
#[unsafe(no_mangle)]
pub extern "C" fn is_ice_skip_pair_ids(alloc: Global, slot: &mut Slot, number: u64) -> i32
    ensures { At (Does (SkipPairIds number)) (held_by slot.old) result (held_by slot.new) }
{
    let Some(held) = slot.held() else {
        return codes::NO_AGENT;
    };
    held.agent.skip_pair_ids(number);
    codes::OK
}

/// Sets how long packets may be, and the length from which they cause a warning, in bytes.
#[unsafe(no_mangle)]
pub extern "C" fn is_ice_set_mtu(alloc: Global, slot: &mut Slot, mtu: usize, warn: usize) -> i32
    ensures { At (Does (SetMtu mtu warn)) (held_by slot.old) result (held_by slot.new) }
{
    let Some(held) = slot.held() else {
        return codes::NO_AGENT;
    };
    codes::done_code(held.agent.set_mtu(mtu..=warn))
}

/// Sets this number as the preference of local candidates that are added from now on.
#[unsafe(no_mangle)]
pub extern "C" fn is_ice_set_local_preference(
    alloc: Global,
    slot: &mut Slot,
    preference: u16,
) -> i32
    ensures { At (Does (SetPreference (Fixed preference))) (held_by slot.old) result (held_by slot.new) }
{
    let Some(held) = slot.held() else {
        return codes::NO_AGENT;
    };
    held.agent
        .set_local_preference(Preference::Fixed(preference));
    codes::OK
}

/// Sets this table for the preferences of local candidates that are added from now on.
#[unsafe(no_mangle)]
pub extern "C" fn is_ice_set_preference_table(
    alloc: Global,
    slot: &mut Slot,
    table: &PreferenceTable,
) -> i32
    ensures { At (Does (SetPreference (ByTable table.now))) (held_by slot.old) result (held_by slot.new) }
{
    let Some(held) = slot.held() else {
        return codes::NO_AGENT;
    };
    held.agent.set_local_preference(Preference::ByTable(*table));
    codes::OK
}

/// Resets the preferences of local candidates that are added from now on to the default.
#[unsafe(no_mangle)]
pub extern "C" fn is_ice_reset_local_preference(alloc: Global, slot: &mut Slot) -> i32
    ensures { At (Does (SetPreference ByDefault)) (held_by slot.old) result (held_by slot.new) }
{
    let Some(held) = slot.held() else {
        return codes::NO_AGENT;
    };
    held.agent.set_local_preference(Preference::ByDefault);
    codes::OK
}

/// Sets this limit of the agent, unless it is 0.
fn set_max_retransmits(held: &mut HeldAgent, limit: usize) -> i32
    ensures { Followed in_turn (SetMaxRetransmits limit) (held_record held.old) result (held_record held.new) }
{
    if limit == 0 {
        return codes::BAD_LIMIT;
    }
    held.agent.set_max_stun_retransmits(limit);
    followed(held, false, codes::OK)
}

/// Sets how many checks a pair sends without a response before it is removed. Fails with `BAD_LIMIT` if the limit is 0.
#[unsafe(no_mangle)]
pub extern "C" fn is_ice_set_max_retransmits(alloc: Global, slot: &mut Slot, limit: usize) -> i32
    ensures { At (Followed in_turn (SetMaxRetransmits limit)) (held_by slot.old) result (held_by slot.new) }
{
    let Some(held) = slot.held() else {
        return codes::NO_AGENT;
    };
    set_max_retransmits(held, limit)
}
