//! Events as C gets them.

use crate::address::Address;

/// Something that happened: 1 a session starts or restarts, 2 the state changed, 3 a source was discovered, 4 media is sent
/// on another path, 5 the selected path is silent, 6 it is heard again.
#[repr(C)]
#[derive(Clone, Copy)]
pub struct Event {
    /// The source, of kinds 3 to 6.
    pub source: Address,
    /// The destination, of kinds 4 to 6.
    pub destination: Address,
    pub kind: i32,
    /// The connection state, of kind 2: 0 New, 1 Checking, 2 Connected, 3 Completed, 4 Disconnected.
    pub state: i32,
    /// The protocol, of kinds 3 to 6.
    pub protocol: u8,
}
