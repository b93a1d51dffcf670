//! The ICE agent (RFC 8445) without sockets, clocks or threads; its rules: `is_rules`.
//!
//! Calls go in, packets and events come out. A call first reads and reserves capacity, then changes the agent; so a call that
//! fails leaves the agent unchanged. A file of the same name in `is_rules` has the rules of a subject.
#![tactic(auto)]

pub mod accepting;
pub mod added;
pub mod agent;
pub mod answers;
pub mod checking;
pub mod credentials;
pub mod discarding;
pub mod emitted;
mod expiring;
mod giving_back;
mod leaving;
pub mod local;
pub mod media;
mod next_check;
pub mod nomination;
pub mod pairs;
mod polls;
pub mod questions;
mod queue;
pub mod rejecting;
pub mod remote;
pub mod removed;
pub mod restarting;
pub mod roles;
mod room;
pub mod serving;
mod settings;
mod state_updates;
pub mod states;
pub mod timeout;
mod timeout_start;
pub mod unserved;

pub use added::Addition;
pub use agent::{Agent, IceAgent};
pub use is_rules::credentials::IceCreds;
pub use is_rules::event::{IceAgentEvent, IceAgentStats, IceConnectionState};
pub use questions::LiveCandidates;
pub use rejecting::Rejection;
pub use unserved::Unserved;
