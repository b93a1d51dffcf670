//! The client of a STUN server, and the messages of a TURN client.

mod allocating;
mod binding;
mod lapsing;
mod leasing;
mod messages;
mod relaying;
mod relays;
mod sessions;
mod side;
