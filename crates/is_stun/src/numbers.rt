//! The constants of the message format (RFC 8489, sections 5, 14 and 18).

/// Type, length, magic cookie and transaction ID.
pub(crate) const HEADER_LEN: usize = 20;

pub(crate) const MAGIC: u32 = 0x2112_A442;

/// The mask for a port: the high half of the magic cookie.
pub(crate) const PORT_MASK: u16 = 0x2112;

/// The mask for the CRC of FINGERPRINT.
pub(crate) const FINGERPRINT_MASK: u32 = 0x5354_554E;

// The types of attributes.

pub(crate) const USERNAME: u16 = 0x0006;

pub(crate) const MESSAGE_INTEGRITY: u16 = 0x0008;

pub(crate) const ERROR_CODE: u16 = 0x0009;

pub(crate) const CHANNEL_NUMBER: u16 = 0x000C;

pub(crate) const LIFETIME: u16 = 0x000D;

pub(crate) const XOR_PEER_ADDRESS: u16 = 0x0012;

pub(crate) const DATA: u16 = 0x0013;

pub(crate) const REALM: u16 = 0x0014;

pub(crate) const NONCE: u16 = 0x0015;

pub(crate) const XOR_RELAYED_ADDRESS: u16 = 0x0016;

pub(crate) const REQUESTED_ADDRESS_FAMILY: u16 = 0x0017;

pub(crate) const REQUESTED_TRANSPORT: u16 = 0x0019;

pub(crate) const XOR_MAPPED_ADDRESS: u16 = 0x0020;

/// SOFTWARE is read and written with this type. The type of RFC 8489, 0x8022, is skipped as unknown types are.
pub(crate) const SOFTWARE: u16 = 0x0022;

pub(crate) const PRIORITY: u16 = 0x0024;

pub(crate) const USE_CANDIDATE: u16 = 0x0025;

pub(crate) const FINGERPRINT: u16 = 0x8028;

pub(crate) const ICE_CONTROLLED: u16 = 0x8029;

pub(crate) const ICE_CONTROLLING: u16 = 0x802A;

/// The cost of the sender's network, as WebRTC sends it.
pub(crate) const NETWORK_COST: u16 = 0xC057;

/// The number of a nomination, as WebRTC sends it (draft-thatcher-ice-renomination).
pub(crate) const NOMINATION: u16 = 0xC001;

// The lengths of values, in bytes.

/// The longest USERNAME that is read.
pub(crate) const USERNAME_LIMIT: usize = 513;

/// The longest other text that is read.
pub(crate) const TEXT_LIMIT: usize = 763;

/// The longest USERNAME that is written (RFC 8489, section 14.3).
pub(crate) const WRITTEN_USERNAME_LIMIT: usize = 508;

/// The longest other text that is written.
pub(crate) const WRITTEN_TEXT_LIMIT: usize = 128;

/// The longest data that is written.
pub(crate) const DATA_LIMIT: usize = 65535;

pub(crate) const INTEGRITY_LEN: usize = 20;
