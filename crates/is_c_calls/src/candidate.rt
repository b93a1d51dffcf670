//! Candidates as C passes them in.

use crate::address::Address;

/// A candidate that the caller gathered.
#[repr(C)]
#[derive(Clone, Copy)]
pub struct LocalCandidate {
    pub address: Address,
    /// The base of a server-reflexive candidate, or the local address of a relayed one. Ignored for a host.
    pub base: Address,
    /// 0 for a host, 1 for a server-reflexive and 2 for a relayed one.
    pub kind: u8,
    pub protocol: u8,
    /// Which side opens the connection of a TCP candidate: 1 active, 2 passive, 3 so; 0 if this is not stated.
    pub tcptype: u8,
}
