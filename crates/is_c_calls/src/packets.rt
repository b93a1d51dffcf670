//! Packets to send, as C gets them.

use crate::address::Address;

/// A packet to send. Its bytes are in the buffer that the caller passed.
#[repr(C)]
#[derive(Clone, Copy)]
pub struct Packet {
    /// The local address to send it from.
    pub source: Address,
    /// Where to send it.
    pub destination: Address,
    pub length: usize,
    pub protocol: u8,
}
