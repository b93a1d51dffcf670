//! STUN as ICE uses it (RFC 8489, RFC 8445): messages, transaction IDs, and the timing of checks.
#![tactic(auto)]

mod accessors;
pub mod address;
mod attributes;
mod builder;
pub mod channel_data;
mod checks;
mod crc;
mod crc_tables;
mod error_code;
pub mod finding;
mod header;
mod integrity;
mod kinds;
mod message;
mod message_writing;
mod numbers;
mod reading;
mod requested;
mod rows;
pub mod theorems;
mod timing;
mod tlv;
mod trans_id;
mod values;
pub mod writing;

/// The public items of the crate, under the name that users know.
pub mod stun {
    pub use crate::attributes::Attributes;
    pub use crate::builder::{Builder, HasClass, HasMethod, NoMethod, StunMessageBuilder};
    pub use crate::header::{Class, Method};
    pub use crate::message::{StunMessage, StunPacket};
    pub use crate::requested::{AddressFamily, Requested};
    pub use crate::timing::{
        Consent, ConsentSetting, DEFAULT_MAX_RETRANSMITS, Profile, StunTiming, early_delay,
    };
    pub use crate::trans_id::TransId;
}
