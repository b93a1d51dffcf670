//! The theorems over executions of an agent, by subject. They build on the rules and on the theorems of transitions of `is_rules`.
//! Each is the contract of a function that does nothing.
//!
//! They are above `is_rules`, in a crate of their own, so that `is_agent` does not wait for them, and one can be added or changed without
//! proving it again.
#![tactic(auto)]

pub mod consent;
pub mod counting;
pub mod exchanging;
pub mod flooding;
pub mod logs;
pub mod matching;
pub mod reaching;
pub mod renominating;
pub mod roles;
pub mod rounds_to_select;
pub mod selecting;
pub mod settling;
pub mod starving;
pub mod staying;
pub mod timing;
pub mod transitions;
