//! The clients of STUN and TURN servers for C.
//!
//! C holds them in a slot of its own, as it holds an agent. An export borrows them from the slot, and makes the library's call.

pub(crate) mod adding;
pub(crate) mod calls;
mod ends;
pub(crate) mod events;
mod handle;
mod held;
pub(crate) mod lines;
pub(crate) mod making;
pub(crate) mod packets;
mod places;
mod slot;
pub(crate) mod streams;
pub(crate) mod urls;

pub use ends::Ends;
pub use events::Event;
pub use held::HeldServers;
pub use lines::{Line, Said};
pub use packets::Arrival;
pub use slot::ServersSlot;
pub use urls::Url;
