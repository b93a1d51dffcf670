//! Tests of the clients of STUN and TURN servers, and of what a program has of them.
#![tactic(auto)]

#[cfg(test)]
mod tests;
