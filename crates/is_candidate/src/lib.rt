//! ICE candidates (RFC 8445, section 5.1): their parts, their priorities, and their texts.
#![tactic(auto)]

pub mod candidate;
pub mod parse;
pub mod preference;

pub use candidate::Candidate;
pub use candidate::builder::{
    CandidateBuilder, HasProtocol, HasRoute, NoProtocol, NoRoute, Tcp, Udp,
};
pub use candidate::kind::CandidateKind;
/// Working memory of `Candidate::from_json_str`, for any number of texts one after the other.
pub use json::Scratch as JsonScratch;
pub use preference::{FnPreference, LocalPreference, PreferenceFunction, default_local_preference};
