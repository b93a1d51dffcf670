//! Addresses as C has them.

/// An address: its family, 4 or 6, its bytes in network order (of family 4 the first four), and its port.
#[repr(C)]
#[derive(Clone, Copy)]
pub struct Address {
    pub family: u8,
    pub bytes: [u8; 16],
    pub port: u16,
    /// The flow information, only for family 6.
    pub flow: u32,
    pub scope: u32,
}
