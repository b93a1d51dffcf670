//! A module for each layer.

mod candidates;
mod pairs;
mod proto;
mod stun;
