//! All STUN and TURN clients of a program.

mod gathering;
mod program;
mod relayed;
mod urls;
