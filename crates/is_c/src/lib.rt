//! The agent for C: one export for each call, and C's view of addresses, candidates, packets and events.
//!
//! C holds an agent in a slot of its own. An export borrows the agent from the slot, and makes the library's call.
#![tactic(auto)]

mod accepting;
mod address;
mod agent_settings;
mod candidate;
mod candidates;
mod clock;
pub mod codes;
mod credentials;
mod deadlines;
mod events;
mod fields;
mod from_fields;
mod grammar;
mod handle;
mod held;
mod infos;
mod lines;
mod log_lines;
mod log_texts;
mod making;
mod mdns;
mod monitoring;
mod packets;
mod pairs;
mod parts;
mod paths;
mod questions;
mod random;
mod rejections;
mod removed;
mod retransmits;
mod servers;
mod session;
mod settings;
mod slot;
mod stun_client;
mod stun_fill;
mod stun_message;
mod stun_names;
mod stun_read;
mod stun_texts;
mod stun_write;
mod text;
mod unserved;

pub use fields::Fields;
pub use handle::{Handle, Opaque};
pub use held::HeldAgent;
pub use is_c_calls::{
    Address, AgentSettings, Event, KindPreferences, LocalCandidate, Packet, Preference,
    PreferenceTable,
};
pub use monitoring::FailedSend;
pub use pairs::Pair;
pub use paths::MediaPath;
pub use questions::{Nominated, Stats, Status};
pub use removed::Removed;
pub use servers::{Arrival, Event as ServerEvent, HeldServers, ServersSlot, Url};
pub use slot::Slot;
pub use stun_client::{Response, Transaction};
pub use stun_message::{Message, Number};
pub use stun_texts::{Span, Texts};
