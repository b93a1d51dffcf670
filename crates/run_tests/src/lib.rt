//! Tests of whole executions: lists of an agent's calls, and of events between two agents. The tests check the logs.
#![tactic(auto)]

#[cfg(test)]
mod tests;
