//! The theorems of TURN clients that take long to prove. Each is the contract of a function that does nothing.
//!
//! They are above `is_turn`, in a crate of their own, so that no crate waits for them.
#![tactic(auto)]

pub mod lapsing;
pub mod leases;
