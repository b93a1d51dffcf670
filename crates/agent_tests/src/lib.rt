//! Tests of the ICE agent through its public API only, the one in `is`. The library itself is empty.
#![tactic(auto)]

#[cfg(test)]
mod tests;
