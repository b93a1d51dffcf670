//! What C calls on an agent: the structs that it passes and gets, and each call as a relation on what a slot holds.
//!
//! The static library `is_c` has the calls. What is proved of lists of them needs these relations only.
#![tactic(auto)]

mod address;
mod agent_settings;
mod candidate;
mod events;
mod packets;
mod preference;

pub use address::Address;
pub use agent_settings::AgentSettings;
pub use candidate::LocalCandidate;
pub use events::Event;
pub use packets::Packet;
pub use preference::{KindPreferences, Preference, PreferenceTable};
