//! What a program keeps next to its agent: the path for media also across an ICE restart, a warning before the selected path is lost, and
//! packets that could not be sent.
//!
//! A `Monitor` only watches an agent. Nothing that the agent does depends on it.
#![tactic(auto)]

pub mod failures;
pub mod media;
pub mod monitor;
pub mod watching;

pub use failures::{FailedSend, FailedSends};
pub use monitor::{Monitor, Previous, Silence};
pub use watching::Watched;
