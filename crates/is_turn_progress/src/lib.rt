//! What is proved of the calls of a TURN client together: what it reaches, what it keeps secret, and what a datagram changes. Each theorem
//! is the contract of a function that does nothing.
#![tactic(auto)]

pub mod authentic;
pub mod progress;
pub mod secrets;
