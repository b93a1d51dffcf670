//! Tests of the layers below the agent: plain types, STUN messages, candidates and pairs.
#![tactic(auto)]

#[cfg(test)]
mod tests;
