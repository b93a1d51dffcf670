//! What is proved of lists of C's calls: each is the contract of a function that does nothing.
//!
//! The contract of each call of the static library `is_c` is its case of `Does`. So what is proved here of lists of `Does` holds of the
//! calls of any program, from `is_ice_agent_new` on.
#![tactic(auto)]

pub mod connecting;
pub mod executions;
pub mod frugal;
pub mod headline;
pub mod two_agents;
