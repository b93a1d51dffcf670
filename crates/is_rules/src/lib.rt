//! The rules of an ICE agent (RFC 8445); the agent that implements them: `is_agent`.
//!
//! They define what each call does to an agent's abstract state, and what any transition can do. What any execution can do is in
//! `is_theorems`. The functions here are those of the rules that need only parts of an agent. A file of the same name in `is_agent` has
//! the agent's part.
#![tactic(auto)]

pub mod accepting;
pub mod answers;
pub mod checking;
pub mod credentials;
pub mod discarding;
pub mod emitted;
pub mod event;
pub mod evicting;
pub mod forming;
mod kind_table;
pub mod kinds;
pub mod leaving;
pub mod limit;
pub mod local;
mod lowest;
pub mod nomination;
pub mod pairs;
pub mod places;
pub mod queue;
pub mod remote;
pub mod reply;
pub mod request;
pub mod restarting;
pub mod roles;
pub mod serving;
pub mod settings;
pub mod sides;
mod slots;
pub mod states;
pub mod theorems;
pub mod timeout;
pub mod timeout_start;
