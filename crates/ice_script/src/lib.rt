//! Scripts of agent calls: [`play`] reads one, makes its calls of two agents, and prints results, packets, events and next
//! timeouts.
#![tactic(auto)]

mod calls;
mod fault;
mod fields;
mod playing;
mod preference;
mod print;
mod profile;
mod reading;
mod script;
mod table;

pub use playing::play;
