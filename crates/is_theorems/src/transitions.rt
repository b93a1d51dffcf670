//! What one transition of an agent does.

ghost use Rattle.is_theorems.specs.Reporting.{EventsAreSelected};
ghost use Rattle.is_theorems.specs.RoleView.{RoleTheorem};
ghost use Rattle.is_theorems.specs.Settings.{SettingsAreSet, AllAreSet, AllAreSetInTurn};
ghost use Rattle.is_rules.specs.Effects.{RejectionKeeps, PathTheorem, TradeTheorem};
ghost use Rattle.is_rules.specs.Sound.{FreshIsSound};

use is_candidate::LocalPreference;
use is_proto::Sha1HmacProvider;

/// A call that fails leaves the state unchanged, and draws no random words.
pub fn rejection_keeps<H: Sha1HmacProvider, P: LocalPreference>()
    ensures { RejectionKeeps H.mac P.answers }
{}

/// A newly created agent satisfies the invariant.
pub fn fresh_is_sound<H: Sha1HmacProvider, P: LocalPreference>()
    ensures { FreshIsSound H P }
{}

/// Each transition of an agent that satisfies the invariant has its effect on paths, and preserves the invariant, whatever the
/// calls, bytes and ties are.
pub fn path_effect<H: Sha1HmacProvider, P: LocalPreference>()
    ensures { PathTheorem H.mac P.answers }
{}

/// Each transition of an agent that satisfies the invariant has its effect on packets and roles.
pub fn trade_effect<H: Sha1HmacProvider, P: LocalPreference>()
    ensures { TradeTheorem H.mac P.answers }
{}

/// Each transition of an agent that satisfies the invariant is such that the peer can rely on it, in its external view: role,
/// packets and checks.
pub fn role_effect<H: Sha1HmacProvider, P: LocalPreference>()
    ensures { RoleTheorem H.mac P.answers }
{}

/// A `NominatedSend` that waits after a call waited before it, or reports a path that the call selects.
pub fn events_are_selected<H: Sha1HmacProvider, P: LocalPreference>()
    ensures { EventsAreSelected H.mac P.answers }
{}

/// A call changes the settings only as its setter says, whatever the agent receives.
pub fn settings_are_set<H: Sha1HmacProvider, P: LocalPreference>()
    ensures { SettingsAreSet H.mac P.answers }
{}

/// `set_settings` sets all of its value at once, and leaves what else the caller sets.
pub fn all_settings_are_set<H: Sha1HmacProvider, P: LocalPreference>()
    ensures { AllAreSet H P }
{}

/// `set_settings` does what the setters of its fields do, one after another.
pub fn all_settings_are_set_in_turn<H: Sha1HmacProvider, P: LocalPreference>()
    ensures { AllAreSetInTurn H.mac P.answers }
{}
